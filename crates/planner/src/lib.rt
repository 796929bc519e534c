//! Drawing plans: what the calls on a sheet answer and leave.
#![tactic(auto)]

mod bringing;
pub mod cases;
mod clearing;
pub mod fill;
mod first_finish;
pub mod handed_in;
pub mod laws;
mod levels;
mod needs;
pub mod opening;
mod order;
mod placing;
mod questions;
pub mod sheet;
mod transfers;
pub mod trial;
pub mod undo;
mod waiting;
