//! A timetable that is a list.
ghost use Rattle.std.specs.Prelude.{◌≡◌, ℕ, ◌≤◌, Bool, count_by, vec_capacity};
ghost use Rattle.timetable.specs.declared.roll.TheConstants.{MOST_BOOKINGS};
ghost use Rattle.model.specs.declared.booking.Booking.{Booking};

use crate::by_start::ByStart;
use model::tick::LATEST_END;
use model::{Booking, Tick};

mod answer;
mod change;
pub mod error;
mod make;

/// The tick by which every booking of a roll ends.
pub const HORIZON: Tick = LATEST_END;

/// How many bookings a roll can hold at most.
pub const MOST_BOOKINGS: usize = 4096;

/// The bookings in the order they were made, and the same bookings by resource and start, for looking.
/// The memory for all of them is got when the roll is made: how much that is says how many there may be.
#[derive(Drop)]
pub struct Roll {
    bookings: Vec<Booking>,
    by_start: ByStart,
    ghost few: { vec_capacity bookings ≤ MOST_BOOKINGS },
    ghost same_room: { vec_capacity by_start.list ≡ vec_capacity bookings },
    ghost same_bookings: { (p : Booking → Bool) → count_by p by_start.list.items ≡ count_by p bookings.items },
}
