//! Why a roll is not made.
ghost use Rattle.std.specs.Prelude.{◌≡◌, Some};
ghost use Rattle.timetable.specs.Rolls.{roll_error_text};
ghost use Rattle.timetable.specs.declared.roll.error.RollError.TheVariants.{Memory};

use std::alloc::AllocError;
use std::error::Error;
use std::fmt;

/// Why a roll is not made.
#[derive(Clone, Copy, Debug, PartialEq, Eq)]
pub enum RollError {
    /// More bookings are asked for than a roll can hold.
    TooMany,
    /// There is no memory for so many bookings.
    Memory,
}

impl fmt::Display for RollError {
    ghost output = { λ e. Some (roll_error_text e) };

    fn fmt<W: fmt::Write>(&self, f: &mut fmt::Formatter<W>) -> fmt::Result {
        f.write_str(match self {
            RollError::TooMany => "more bookings than a roll can hold",
            RollError::Memory => "no memory for the bookings",
        })
    }
}

impl Error for RollError {}

// Not derived: a derived `From` says nothing of the error that it makes.
impl From<AllocError> for RollError {
    ghost from_gives = { λ _ e. e ≡ Memory };

    fn from(_error: AllocError) -> RollError {
        RollError::Memory
    }
}
