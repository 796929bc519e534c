//! Why a line was not read.
ghost use Rattle.std.specs.Prelude.{◌≡◌, Some};
ghost use Rattle.script.specs.Error.{line_error_text};
ghost use Rattle.script.specs.declared.error.LineError.TheVariants.{Memory};

use std::alloc::{AllocError, AllocFailed};
use std::error::Error;
use std::fmt;

/// Why a line was not read.
#[derive(Clone, Copy, Debug, PartialEq, Eq)]
pub enum LineError {
    /// The bytes say nothing that a script can say.
    NotUnderstood,
    /// There was no memory for the list that the line holds.
    Memory,
}

impl fmt::Display for LineError {
    ghost output = { λ e. Some (line_error_text e) };

    fn fmt<W: fmt::Write>(&self, f: &mut fmt::Formatter<W>) -> fmt::Result {
        f.write_str(match self {
            LineError::NotUnderstood => "not understood",
            LineError::Memory => "no memory",
        })
    }
}

impl Error for LineError {}

// Not derived: a derived `From` says nothing of the error that it makes.
impl From<AllocError> for LineError {
    ghost from_gives = { λ _ r. r ≡ Memory };

    fn from(_error: AllocError) -> LineError {
        LineError::Memory
    }
}

impl<T: Drop> From<AllocFailed<T>> for LineError {
    ghost from_gives = { λ _ r. r ≡ Memory };

    fn from(_error: AllocFailed<T>) -> Self {
        Self::Memory
    }
}
