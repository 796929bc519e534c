//! Drawing by any list of calls.
ghost use Rattle.std.specs.Prelude.{◌≡◌, List, ◌++◌, IfOk, OnOk, OnErr};
ghost use Rattle.model.specs.Data.{job_of, net_of};
ghost use Rattle.certificate.specs.Calls.{after, told, calls_of};
ghost use Rattle.model.specs.Plans.{plan_of};
ghost use Rattle.model.specs.Refusals.{refusal_of};
ghost use Rattle.planner.specs.Drawing.{new_sheet, new_state};
ghost use Rattle.planner.specs.Trials.{BeingDrawn};
ghost use Rattle.certificate.specs.Certificate.{Certified};
ghost use Rattle.certificate.specs.Promise.{FromNewSheet, CertifiedSheet, EveryListOfCalls};
ghost use Rattle.certificate.specs.Sheets.{sheet_of};
ghost use Rattle.certificate.specs.declared.call.Call as Declared;

use crate::call::Asked;
use crate::sheet::Sheet;
use crate::steps::carry_out;
use model::{Job, Plan, Refusal};
use planner::opening::new_sheet;
use routes::Routes;
use timetable::Writable;

/// Draws from a new sheet: blanks the plan, carries out the calls in turn, and writes down the answer of each.
/// Each call gets sheet, plan and timetable as the one before left them, refused or not.
/// A timetable with bookings is refused, and then nothing changes.
pub fn draw<R: Routes, T: Writable>(
    routes: &R,
    job: &Job,
    plan: &mut Plan,
    table: &mut T,
    asked: &mut [Asked],
) -> Result<Sheet, Refusal>
    ensures refused { refusal_of result ≡ refusal_of (new_sheet (plan_of plan.old) (T.meaning table.old)).answer }
    ensures sheet { IfOk result (λ sheet. sheet_of sheet plan.new (T.meaning table.new) ≡ after (job_of job.now) (net_of (R.over routes.now)) (R.route routes.now) (BeingDrawn (new_state (T.meaning table.old))) (calls_of asked.old)) }
    ensures answers { OnOk result (asked.new ≡ told (job_of job.now) (net_of (R.over routes.now)) (R.route routes.now) (BeingDrawn (new_state (T.meaning table.old))) asked.old) }
    ensures unchanged { OnErr result ((plan_of plan.new ≡ plan_of plan.old) × (T.meaning table.new ≡ T.meaning table.old) × (asked.new ≡ asked.old)) }
    ensures certified { OnOk result (Certified (job_of job.now) (net_of (R.over routes.now)) (R.route routes.now) (plan_of plan.new)) }
    ensures every_list { EveryListOfCalls }
{
    let drawing = new_sheet(plan, table)?;
    Ok(draw_on(Sheet::Drawing(drawing), routes, job, plan, table, asked))
}

/// Goes on with a drawing: carries out the calls in turn, and writes down the answer of each.
/// Each call gets sheet, plan and timetable as the one before left them, refused or not.
pub fn draw_on<R: Routes, T: Writable>(
    mut sheet: Sheet,
    routes: &R,
    job: &Job,
    plan: &mut Plan,
    table: &mut T,
    asked: &mut [Asked],
) -> Sheet
    ensures sheet { sheet_of result plan.new (T.meaning table.new) ≡ after (job_of job.now) (net_of (R.over routes.now)) (R.route routes.now) (sheet_of sheet plan.old (T.meaning table.old)) (calls_of asked.old) }
    ensures answers { asked.new ≡ told (job_of job.now) (net_of (R.over routes.now)) (R.route routes.now) (sheet_of sheet plan.old (T.meaning table.old)) asked.old }
    ensures certified { (before : List Declared.Call) → FromNewSheet (job_of job.now) (net_of (R.over routes.now)) (R.route routes.now) before (sheet_of sheet plan.old (T.meaning table.old)) → CertifiedSheet (job_of job.now) (net_of (R.over routes.now)) (R.route routes.now) (before ++ calls_of asked.old) (sheet_of result plan.new (T.meaning table.new)) }
{
    for next in asked.iter_mut() {
        let (left, answer) = carry_out(sheet, routes, job, plan, table, next.call);
        sheet = left;
        next.answer = Some(answer);
    }
    sheet
}
