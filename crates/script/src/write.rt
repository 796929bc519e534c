//! Writes the words of a line again.
ghost use Rattle.std.specs.Prelude.{OnOk};
ghost use Rattle.std.specs.Io.KnownBytes.{Appends};
ghost use Rattle.script.specs.Read.{spaced, line_words};

use crate::words::{Words, without_comment};
use std::io;
use std::io::Write;

#[tactic(auto, using(crate::proofs::Spacing::first_written, crate::proofs::Spacing::next_written, crate::proofs::Spacing::all_written))]
/// Writes the words of `line`, a line of a script without its newline, as they stand there: with one space between each
/// two, and no comment.
pub fn write_words<W: Write>(out: &mut W, line: &[u8]) -> io::Result<()>
    ensures { OnOk result (Appends (W.contents out.old) (W.contents out.new) (spaced (line_words line.now))) }
{
    let mut words = Words::new(without_comment(line));
    let Some(first) = words.next() else {
        return Ok(());
    };
    out.write_all(first)?;
    for word in words {
        out.write_all(b" ")?;
        out.write_all(word)?;
    }
    Ok(())
}
