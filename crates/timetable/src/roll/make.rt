//! Making a roll.
ghost use Rattle.std.specs.Prelude.{◌≡◌, ◌<◌, ◌↔◌, IfOk, IsOk};
ghost use Rattle.timetable.specs.Rolls.{roll_table};
ghost use Rattle.timetable.specs.Tables.{empty_table};

use crate::by_start::ByStart;
use crate::roll::error::RollError;
use crate::roll::{HORIZON, MOST_BOOKINGS, Roll};
use model::check;
use std::alloc::Global;

impl Roll {
    /// A roll with no bookings and with the memory for `most`, which is at most `MOST_BOOKINGS`.
    /// From then on it needs no more memory.
    pub fn new(alloc: Global, most: usize) -> Result<Roll, RollError>
        ensures made { IfOk result (λ roll. roll_table roll ≡ empty_table HORIZON most) }
        ensures too_many { (result ≡ Err RollError.TooMany) ↔ (MOST_BOOKINGS < most) }
        ensures none_needs_no_memory { most ≡ 0 → IsOk result }
    {
        check(most <= MOST_BOOKINGS, RollError::TooMany)?;
        Ok(Roll {
            bookings: Vec::with_capacity(alloc, most)?,
            by_start: ByStart::new(alloc, most)?,
        })
    }
}
