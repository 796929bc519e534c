//! Reads the lines of a script: bytes into typed lines.
#![tactic(auto)]

pub mod error;
mod form;
mod hop;
pub mod line;
mod lines;
mod list;
mod number;
mod read;
mod statement;
mod words;
mod write;

pub use error::LineError;
pub use line::{HopWords, Line, RouteKind, TimetableKind};
pub use lines::Lines;
pub use number::read_number;
pub use read::read_line;
pub use write::write_words;
