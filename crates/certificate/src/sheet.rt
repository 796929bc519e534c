//! A sheet between two calls.

ghost use Rattle.std.specs.Prelude.{◌≡◌};
ghost use Rattle.certificate.specs.Sheets.{counted};

use planner::sheet::{Drawing, OnTrial};

/// A sheet that is drawn on, or whose last step is on trial. It is not `Drop`, since it may be on trial.
pub enum Sheet {
    Drawing(Drawing),
    OnTrial(OnTrial),
}

impl Sheet {
    /// The sheet to draw on; what is on trial is kept.
    pub fn keep(self) -> Drawing
        ensures { result.count ≡ counted self }
    {
        match self {
            Sheet::Drawing(drawing) => drawing,
            Sheet::OnTrial(trial) => trial.keep(),
        }
    }
}
