//! Why a bit sheet is not made.
ghost use Rattle.std.specs.Prelude.{◌≡◌, Some};
ghost use Rattle.timetable.specs.BitSheets.{sheet_error_text};
ghost use Rattle.timetable.specs.declared.bit_sheet.error.BitSheetError.TheVariants.{Memory};

use std::alloc::AllocError;
use std::error::Error;
use std::fmt;

/// Why a bit sheet is not made.
#[derive(Clone, Copy, Debug, PartialEq, Eq)]
pub enum BitSheetError {
    /// More words are asked for than a resource can have.
    TooManyWords,
    /// More bookings are asked for than a bit sheet can hold.
    TooMany,
    /// There is no memory for so many bookings and words.
    Memory,
}

impl fmt::Display for BitSheetError {
    ghost output = { λ e. Some (sheet_error_text e) };

    fn fmt<W: fmt::Write>(&self, f: &mut fmt::Formatter<W>) -> fmt::Result {
        f.write_str(match self {
            BitSheetError::TooManyWords => "more words than a resource of a bit sheet can have",
            BitSheetError::TooMany => "more bookings than a bit sheet can hold",
            BitSheetError::Memory => "no memory for the bookings or the words",
        })
    }
}

impl Error for BitSheetError {}

// Not derived: a derived `From` says nothing of the error that it makes.
impl From<AllocError> for BitSheetError {
    ghost from_gives = { λ _ e. e ≡ Memory };

    fn from(_error: AllocError) -> BitSheetError {
        BitSheetError::Memory
    }
}
