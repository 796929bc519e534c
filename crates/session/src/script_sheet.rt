//! The one sheet of a script.

use certificate::Sheet;

/// A sheet that is open, or one that was handed in and marked. It is not `Drop`, since it may be on trial.
pub(crate) enum ScriptSheet {
    Open(Sheet),
    HandedIn,
}

impl ScriptSheet {
    /// Lets the sheet go, with what is on trial kept.
    pub(crate) fn let_go(self) {
        match self {
            ScriptSheet::Open(sheet) => {
                let _ = sheet.keep();
            }
            ScriptSheet::HandedIn => {}
        }
    }
}
