//! Drawing by any list of calls, and what is certified of every plan that is drawn.
#![tactic(auto)]

pub mod call;
pub mod cases;
pub mod draw;
pub mod laws;
pub mod sheet;
pub mod slip;
mod steps;

pub use call::{Answer, Asked, Call};
pub use sheet::Sheet;
pub use slip::{Slip, mark};
