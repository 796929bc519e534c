//! The lines that draw: each asks something of the sheet.
ghost use Rattle.std.specs.Prelude.{◌≡◌, [], IfOk};
ghost use Rattle.certificate.specs.Calls.{carry_out as Defined};
ghost use Rattle.certificate.specs.Sheets.{sheet_of};
ghost use Rattle.planner.specs.Drawing.{new_state};
ghost use Rattle.planner.specs.Trials.{BeingDrawn};
ghost use Rattle.certificate.specs.Slips.{slip};
ghost use Rattle.model.specs.Data.{job_of};
ghost use Rattle.model.specs.Plans.{plan_of};
ghost use Rattle.session.specs.Drawings.{call_line, reply_line};
ghost use Rattle.session.specs.Going.{sheet_in, without_sheet};
ghost use Rattle.session.specs.Requests.{reply_by, open_replied, replied};
ghost use Rattle.session.specs.Makings.{on};
ghost use Rattle.session.specs.Printing.{Adds};

use crate::made::Made;
use crate::print::print_slip;
use crate::request::{Reply, Request};
use crate::script_sheet::ScriptSheet;
use crate::stop::Stop;
use crate::work::Work;
use certificate::draw::{draw, draw_on};
use certificate::{Answer, Asked, Call, Sheet, mark};
use model::{Job, Plan};
use planner::sheet::Drawing;
use routes::Routes;
use script::write_words;
use std::io;
use std::io::Write;
use timetable::Writable;

/// The words of a line, and what its call answers.
#[tactic(auto, unfolding(crate::specs::Drawings::call_line))]
fn print_call<W: Write>(out: &mut W, bytes: &[u8], answer: Answer) -> io::Result<()>
    ensures { Adds W.contents result out.old out.new (call_line bytes.now answer) }
{
    write_words(out, bytes)?;
    writeln!(out, ": {answer}")
}

/// The answer of a call, or a slip.
pub(crate) fn print_reply<W: Write>(
    out: &mut W,
    job: &Job,
    bytes: &[u8],
    reply: Reply,
) -> io::Result<()>
    ensures { Adds W.contents result out.old out.new (reply_line (job_of job.now) bytes.now reply) }
{
    match reply {
        Reply::Answered(answer) => print_call(out, bytes, answer),
        Reply::Marked(slip) => print_slip(out, job, slip),
    }
}

/// A new sheet. Its timetable has no bookings, so it is not refused.
pub(crate) fn new_sheet<R: Routes, T: Writable>(made: &Made<'_, R>, work: &mut Work<T>) -> Sheet
    requires { (T.meaning work.old.table).bookings ≡ [] }
    ensures answer { work.new.answer ≡ work.old.answer }
    ensures sheet { sheet_of result work.new.drawn (T.meaning work.new.table) ≡ BeingDrawn (new_state (T.meaning work.old.table)) }
{
    draw(
        made.routes,
        made.job,
        &mut work.drawn,
        &mut work.table,
        &mut [],
    )
    .unwrap()
}

/// Carries out a call on the sheet.
fn carry_out<R: Routes, T: Writable>(
    made: &Made<'_, R>,
    work: &mut Work<T>,
    sheet: Sheet,
    call: Call,
) -> (Sheet, Answer)
    ensures answer { work.new.answer ≡ work.old.answer }
    ensures reply { record { answer = result.1; sheet = sheet_of result.0 work.new.drawn (T.meaning work.new.table) } ≡ on made.now Defined (sheet_of sheet work.old.drawn (T.meaning work.old.table)) call }
{
    let mut asked = [Asked { call, answer: None }];
    let sheet = draw_on(
        sheet,
        made.routes,
        made.job,
        &mut work.drawn,
        &mut work.table,
        &mut asked,
    );
    (sheet, asked[0].answer.unwrap())
}

/// Hands a sheet in, and gives its slip, or why it has none.
fn hand_in<R: Routes>(made: &Made<'_, R>, drawn: &Plan, drawing: Drawing) -> Reply
    ensures { result ≡ reply_by (on made.now slip drawing.count (plan_of drawn.now)) }
{
    match mark(drawing.hand_in(), made.routes, made.job, drawn) {
        Ok(slip) => Reply::Marked(slip),
        // The sheet that comes back is let go: it allows nothing more.
        Err((_, refusal)) => Reply::Answered(Answer::Refused(refusal)),
    }
}

/// Asks something of an open sheet.
fn ask_open<R: Routes, T: Writable>(
    made: &Made<'_, R>,
    work: &mut Work<T>,
    sheet: Sheet,
    request: Request,
) -> (ScriptSheet, Reply)
    ensures answer { work.new.answer ≡ work.old.answer }
    ensures reply { record { reply = result.1; sheet = sheet_in result.0 work.new.drawn (T.meaning work.new.table) } ≡ on made.now open_replied (sheet_of sheet work.old.drawn (T.meaning work.old.table)) request }
{
    match (request, sheet) {
        (Request::Draw(call), sheet) => {
            let (sheet, answer) = carry_out(made, work, sheet, call);
            (ScriptSheet::Open(sheet), Reply::Answered(answer))
        }
        (Request::HandIn, Sheet::Drawing(drawing)) => {
            (ScriptSheet::HandedIn, hand_in(made, &work.drawn, drawing))
        }
        (Request::HandIn, sheet) => (
            ScriptSheet::Open(sheet),
            Reply::Answered(Answer::NotAllowed),
        ),
    }
}

/// Asks something of the sheet. One that was handed in allows nothing.
pub(crate) fn ask<R: Routes, T: Writable>(
    made: &Made<'_, R>,
    work: &mut Work<T>,
    sheet: ScriptSheet,
    request: Request,
) -> (ScriptSheet, Reply)
    ensures answer { work.new.answer ≡ work.old.answer }
    ensures reply { record { reply = result.1; sheet = sheet_in result.0 work.new.drawn (T.meaning work.new.table) } ≡ on made.now replied (sheet_in sheet work.old.drawn (T.meaning work.old.table)) request }
{
    match sheet {
        ScriptSheet::Open(sheet) => ask_open(made, work, sheet, request),
        ScriptSheet::HandedIn => (ScriptSheet::HandedIn, Reply::Answered(Answer::NotAllowed)),
    }
}

/// The sheet, if all went well. Else it is let go.
pub(crate) fn give_back(sheet: ScriptSheet, done: Result<(), Stop>) -> Result<ScriptSheet, Stop>
    ensures done { without_sheet result ≡ done }
    ensures sheet { IfOk result (λ s. s ≡ sheet) }
{
    match done {
        Ok(()) => Ok(sheet),
        Err(stop) => {
            sheet.let_go();
            Err(stop)
        }
    }
}
