//! Why a script is followed no further.
ghost use Rattle.std.specs.Prelude.{Some};
ghost use Rattle.session.specs.Printing.{maker_name};

use model::Refusal;
use script::LineError;
use std::alloc::AllocError;
use std::{fmt, io};
use timetable::{BitSheetError, RollError};

/// What is made of a setting.
#[derive(Clone, Copy, Debug, PartialEq, Eq)]
pub enum Maker {
    Job,
    Network,
    Routes,
}

impl fmt::Display for Maker {
    ghost output = { λ maker. Some (maker_name maker) };

    fn fmt<W: fmt::Write>(&self, f: &mut fmt::Formatter<W>) -> fmt::Result {
        f.write_str(match self {
            Maker::Job => "job",
            Maker::Network => "network",
            Maker::Routes => "routes",
        })
    }
}

/// Why a script is followed no further.
#[derive(Drop)]
pub enum Stop {
    /// The line read last is not understood.
    NotUnderstood,
    /// This could not be made of the setting.
    Refused(Maker, Refusal),
    /// There is no memory, or what was found cannot be written.
    Failed(io::Error),
}

// `From` is not derived: a derived one says nothing of the error that it makes.
impl From<LineError> for Stop {
    ghost use Rattle.session.specs.Stops.{StopsFor};

    ghost from_gives = { StopsFor };

    fn from(error: LineError) -> Stop {
        match error {
            LineError::NotUnderstood => Stop::NotUnderstood,
            LineError::Memory => Stop::Failed(AllocError.into()),
        }
    }
}

impl From<AllocError> for Stop {
    ghost use Rattle.session.specs.Stops.{IsFailure};

    ghost from_gives = { λ _ stop. IsFailure stop };

    fn from(error: AllocError) -> Stop {
        Stop::Failed(error.into())
    }
}

impl From<io::Error> for Stop {
    ghost use Rattle.session.specs.Stops.{IsFailure};

    ghost from_gives = { λ _ stop. IsFailure stop };

    fn from(error: io::Error) -> Stop {
        Stop::Failed(error)
    }
}

impl From<RollError> for Stop {
    ghost use Rattle.session.specs.Stops.{IsFailure};

    ghost from_gives = { λ _ stop. IsFailure stop };

    // No line asks for more bookings than a roll can hold: what is left is memory.
    fn from(_error: RollError) -> Stop {
        Stop::Failed(AllocError.into())
    }
}

impl From<BitSheetError> for Stop {
    ghost use Rattle.session.specs.Stops.{IsFailure};

    ghost from_gives = { λ _ stop. IsFailure stop };

    // No line asks for more bookings or words than a bit sheet can hold: what is left is memory.
    fn from(_error: BitSheetError) -> Stop {
        Stop::Failed(AllocError.into())
    }
}
