//! The lines of a script, read one by one and counted.
ghost use Rattle.std.specs.Prelude.{◌≡◌, ◌+◌, ◌^◌, ◌<◌, length};
ghost use Rattle.script.specs.Lines.{lines_left};

use script::{Line, LineError, Lines, read_line};
use std::alloc::Global;

/// The lines that are still to come, how many were read, and the last of them.
#[derive(Drop)]
pub struct Reader<'a> {
    alloc: Global,
    lines: Lines<'a>,
    number: usize,
    /// The line that was read last, as it stands.
    bytes: &'a [u8],
    /// The line that was read last, if it was handed back. Not a `Peekable`: it would hide `number`.
    handed_back: Option<Line>,
    ghost counted: { number + length (lines_left lines) < 2 ^ 64 },
}

impl<'a> Reader<'a> {
    ghost use Rattle.script.specs.Lines.{lines_of};
    ghost use Rattle.session.specs.Statements.{statements, put_back, unread, to_come};

    /// All lines of a script.
    pub fn new(alloc: Global, text: &'a [u8]) -> Reader<'a>
        ensures { to_come result ≡ statements 0 (lines_of text.now) }
    {
        Reader {
            alloc,
            lines: Lines::new(text),
            number: 0,
            bytes: b"",
            handed_back: None,
        }
    }

    /// The number of the line that was read last.
    pub fn number(&self) -> usize
        ensures { result ≡ self.now.number }
    {
        self.number
    }

    /// The bytes of the line that was read last.
    pub fn bytes(&self) -> &'a [u8]
        ensures { result.now ≡ self.now.bytes.now }
    {
        self.bytes
    }

    /// Takes the line that was read last back: it comes next again.
    pub fn hand_back(&mut self, line: Line)
        ensures { to_come self.new ≡ put_back self.old.number self.old.bytes.now (Some line) (unread self.old) }
    {
        self.handed_back = Some(line);
    }
}

/// The lines that have a word, one by one.
impl Iterator for Reader<'_> {
    ghost use Rattle.std.specs.Iterator.{at_most};
    ghost use Rattle.session.specs.Statements.{lines_to_come, GivesFirst};

    type Item = Result<Line, LineError>;

    ghost next_gives = { GivesFirst };

    ghost remaining = { λ reader. at_most (lines_to_come reader) };

    fn next(&mut self) -> Option<Result<Line, LineError>> {
        if let Some(line) = self.handed_back.take() {
            return Some(Ok(line));
        }
        // A loop, not `find_map`: what its closure would leave in `number` has no name in a proof.
        while let Some(bytes) = self.lines.next() {
            self.number += 1;
            self.bytes = bytes;
            let said = read_line(self.alloc, bytes);
            if !matches!(said, Ok(None)) {
                return said.transpose();
            }
        }
        None
    }
}
