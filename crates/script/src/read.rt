//! Reads one line of a script.
ghost use Rattle.std.specs.Prelude.{◌≡◌};
ghost use Rattle.script.specs.Read.{read, Reads, spaced, line_words};
ghost use Rattle.script.specs.Written.{ReadsBack};

use crate::error::LineError;
use crate::line::Line;
use crate::statement::statement_of;
use crate::words::{Words, without_comment};
use std::alloc::Global;

/// What `line` says, a line of a script without its newline; `None` where it holds no word.
#[tactic(auto, using(crate::proofs::Answering::refused, crate::proofs::Spaced::read_spaced, crate::proofs::ReadsBack::reads_back))]
pub fn read_line(heap: Global, line: &[u8]) -> Result<Option<Line>, LineError>
    ensures answer { Reads result (read line.now) }
    ensures again { read (spaced (line_words line.now)) ≡ read line.now }
    ensures written { ReadsBack }
{
    let mut words = Words::new(without_comment(line));
    let Some(word) = words.next() else {
        return Ok(None);
    };
    statement_of(heap, word, words).map(Some)
}
