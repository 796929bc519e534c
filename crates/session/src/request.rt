//! What a line asks of the sheet, and what it is replied.
ghost use Rattle.std.specs.Prelude.{◌≡◌};
ghost use Rattle.script.specs.Data.{line_data};
ghost use Rattle.session.specs.Requests.{request_of};

use certificate::{Answer, Call, Slip};
use script::Line;

/// What a line asks of the sheet.
#[derive(Clone, Copy, Debug, PartialEq, Eq)]
pub(crate) enum Request {
    Draw(Call),
    HandIn,
}

/// What it is replied.
#[derive(Clone, Copy, Debug, PartialEq, Eq)]
pub(crate) enum Reply {
    Answered(Answer),
    Marked(Slip),
}

/// What a line asks of the sheet, if anything.
pub(crate) fn request_of(line: &Line) -> Option<Request>
    ensures { result ≡ request_of (line_data line.now) }
{
    let call = match *line {
        Line::Place { task, machine } => Call::Place {
            task: task as usize,
            machine: machine as usize,
        },
        Line::Try { task, machine } => Call::Try {
            task: task as usize,
            machine: machine as usize,
        },
        Line::Keep => Call::Keep,
        Line::Strike => Call::Strike,
        Line::Back => Call::TakeBack,
        Line::Fill => Call::Fill,
        Line::HandIn => return Some(Request::HandIn),
        _ => return None,
    };
    Some(Request::Draw(call))
}
