//! The lines after the setting: those of a candidate's answer, those that draw, and those that show what is drawn.
ghost use Rattle.std.specs.Prelude.{◌≡◌, [], IfOk};
ghost use Rattle.session.specs.declared.script_sheet.ScriptSheet.{ScriptSheet};
ghost use Rattle.model.specs.Plans.{plan_of};
ghost use Rattle.script.specs.Data.{line_data};
ghost use Rattle.session.specs.Answers.{plan_after};
ghost use Rattle.session.specs.Drawings.{beginning, followed, line_text, other_text, progress_after};
ghost use Rattle.session.specs.Going.{progress_of, without_sheet};
ghost use Rattle.session.specs.Makings.{on};
ghost use Rattle.session.specs.Statements.{to_come};
ghost use Rattle.session.specs.TableForms.{empty_by};
ghost use Rattle.session.specs.Stops.{Prints};

use crate::answer::answer_line;
use crate::draw::{ask, give_back, new_sheet, print_reply};
use crate::made::Made;
use crate::request::request_of;
use crate::script_sheet::ScriptSheet;
use crate::session::Session;
use crate::show::print_plan;
use crate::stop::Stop;
use crate::table_form::TableForm;
use crate::work::Work;
use routes::{RoutedPlan, Routes};
use script::{Line, TimetableKind};
use std::io::Write;
use timetable::{BitSheet, Roll, Writable};

/// Carries out a line that asks nothing of the sheet.
fn other_line<R: Routes, T: Writable, W: Write>(
    out: &mut W,
    made: &Made<'_, R>,
    work: &mut Work<T>,
    line: Line,
) -> Result<(), Stop>
    ensures answer { plan_of work.new.answer ≡ plan_after (plan_of work.old.answer) (line_data line) }
    ensures drawn { work.new.drawn ≡ work.old.drawn }
    ensures table { work.new.table ≡ work.old.table }
    ensures text { (sheet : ScriptSheet) → Prints result (W.contents out.old) (W.contents out.new) (on made.now other_text (progress_of T.meaning sheet work.old) (line_data line)) }
{
    match line {
        Line::Show => {
            let drawn = RoutedPlan::new(made.routes, made.job, &work.drawn);
            Ok(print_plan(out, &drawn)?)
        }
        other => answer_line(out, made, &mut work.answer, other),
    }
}

/// Carries out one line, of these bytes. Where it ends the script, the sheet is let go.
fn follow_line<R: Routes, T: Writable, W: Write>(
    out: &mut W,
    made: &Made<'_, R>,
    work: &mut Work<T>,
    sheet: ScriptSheet,
    bytes: &[u8],
    line: Line,
) -> Result<ScriptSheet, Stop>
    ensures text { Prints (without_sheet result) (W.contents out.old) (W.contents out.new) (on made.now line_text (progress_of T.meaning sheet work.old) bytes.now (line_data line)) }
    ensures progress { IfOk result (λ next. progress_of T.meaning next work.new ≡ on made.now progress_after (progress_of T.meaning sheet work.old) (line_data line)) }
{
    let Some(request) = request_of(&line) else {
        let done = other_line(out, made, work, line);
        return give_back(sheet, done);
    };
    let (sheet, reply) = ask(made, work, sheet, request);
    let done = print_reply(out, made.job, bytes, reply);
    give_back(sheet, done.map_err(Stop::from))
}

impl<W: Write> Session<'_, '_, W> {
    ghost use Rattle.session.specs.Following.{Follows};

    /// Carries out the lines that follow the setting, over an answer that is blank at first and a new sheet,
    /// with a timetable that has no bookings.
    fn lines_over<R: Routes, T: Writable + Drop>(
        &mut self,
        made: &Made<'_, R>,
        table: T,
    ) -> Result<(), Stop>
        requires { (T.meaning table).bookings ≡ [] }
        ensures { Follows W.contents result self.old self.new (on made.now (λ J N ρ. followed J N ρ (beginning (T.meaning table))) (to_come self.old.reader)) }
    {
        let mut work = Work::new(table);
        let mut sheet = ScriptSheet::Open(new_sheet(made, &mut work));
        // Not a `for`: while it has the reader on loan, an invariant has no name for the session.
        while let Some(said) = self.reader.next() {
            let line = match said {
                Ok(line) => line,
                Err(error) => {
                    sheet.let_go();
                    return Err(error.into());
                }
            };
            let bytes = self.reader.bytes();
            sheet = follow_line(self.out, made, &mut work, sheet, bytes, line)?;
        }
        sheet.let_go();
        Ok(())
    }

    /// Carries out the lines that follow the setting, over the timetable that the script asks for.
    pub fn lines<R: Routes>(&mut self, made: &Made<'_, R>) -> Result<(), Stop>
        ensures { Follows W.contents result self.old self.new (on made.now (λ J N ρ. followed J N ρ (beginning (empty_by made.now.table))) (to_come self.old.reader)) }
    {
        let TableForm { kind, most } = made.table;
        match kind {
            TimetableKind::Roll => {
                let roll = Roll::new(self.alloc, most)?;
                self.lines_over(made, roll)
            }
            TimetableKind::Bits(words) => {
                let sheet = BitSheet::new(self.alloc, words as usize, most)?;
                self.lines_over(made, sheet)
            }
        }
    }
}
