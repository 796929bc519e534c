//! Why a plan does not take what is written to it.
ghost use Rattle.std.specs.Prelude.{Some};
ghost use Rattle.model.specs.Rows.{plan_error_text};

use std::error::Error;
use std::fmt;

/// Why a plan does not take a row, a start or a step.
#[derive(Clone, Copy, Debug, PartialEq, Eq)]
pub enum PlanError {
    /// The table has no row of that number.
    NoSuchRow,
    /// A row's station is above 15.
    NoSuchStation,
    /// All places for starts, or for steps, are taken.
    Full,
}

impl fmt::Display for PlanError {
    ghost output = { λ e. Some (plan_error_text e) };

    fn fmt<W: fmt::Write>(&self, f: &mut fmt::Formatter<W>) -> fmt::Result {
        f.write_str(match self {
            PlanError::NoSuchRow => "no such row",
            PlanError::NoSuchStation => "no such station",
            PlanError::Full => "no place left",
        })
    }
}

impl Error for PlanError {}
