//! A script that is being followed.
ghost use Rattle.std.specs.Prelude.{◌≡◌};
ghost use Rattle.script.specs.Lines.{lines_of};

use crate::reader::Reader;
use std::alloc::Global;

/// The lines that are still to come, and what the text that is found is written to.
#[derive(Drop)]
pub struct Session<'t, 'o, W> {
    pub alloc: Global,
    pub reader: Reader<'t>,
    pub out: &'o mut W,
}

impl<'t, 'o, W> Session<'t, 'o, W> {
    ghost use Rattle.session.specs.Statements.{statements, to_come};

    /// The script `text`, none of which is followed yet.
    pub fn new(alloc: Global, text: &'t [u8], out: &'o mut W) -> Session<'t, 'o, W>
        ensures lines { to_come result.reader ≡ statements 0 (lines_of text.now) }
        ensures same_reference { result.out.ghost_name ≡ out.entry.ghost_name }
        ensures out { result.out.now ≡ out.old }
    {
        Session {
            alloc,
            reader: Reader::new(alloc, text),
            out,
        }
    }
}
