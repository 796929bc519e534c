//! Timetables of resources: what one means, who may ask and write one, and two that keep one: a list, and a bit for each tick.
#![tactic(auto)]

pub mod ask;
pub mod bit_sheet;
mod bits;
mod by_start;
mod gap;
pub mod laws;
pub mod roll;
mod runs;
pub mod write;

pub use ask::Askable;
pub use bit_sheet::BitSheet;
pub use bit_sheet::error::BitSheetError;
pub use roll::Roll;
pub use roll::error::RollError;
pub use write::Writable;
