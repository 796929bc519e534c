//! One call on a sheet.
ghost use Rattle.std.specs.Prelude.{◌≡◌};
ghost use Rattle.model.specs.Data.{job_of, net_of};
ghost use Rattle.planner.specs.States.{state};
ghost use Rattle.certificate.specs.Calls.{call_drawing, call_on_trial, carry_out};
ghost use Rattle.certificate.specs.declared.call.Call.TheVariants.{Try};
ghost use Rattle.certificate.specs.Sheets.{sheet_of};

use crate::call::{Answer, Call};
use crate::sheet::Sheet;
use model::{Job, Plan};
use planner::sheet::{Drawing, OnTrial};
use routes::Routes;
use timetable::Writable;

/// Tries a task on a machine.
fn try_on<R: Routes, T: Writable>(
    drawing: Drawing,
    routes: &R,
    job: &Job,
    plan: &mut Plan,
    table: &mut T,
    task: usize,
    machine: usize,
) -> (Sheet, Answer)
    ensures { record { answer = result.1; sheet = sheet_of result.0 plan.new (T.meaning table.new) } ≡ call_drawing (job_of job.now) (net_of (R.over routes.now)) (R.route routes.now) (state drawing.count plan.old (T.meaning table.old)) (Try task machine) }
{
    match drawing.try_place(routes, job, plan, table, task, machine) {
        Ok((trial, finish)) => (Sheet::OnTrial(trial), Answer::Finish(finish)),
        Err((drawing, refusal)) => (Sheet::Drawing(drawing), Answer::Refused(refusal)),
    }
}

/// A call on a sheet that is drawn on. Keep and strike are not allowed.
fn call_drawing<R: Routes, T: Writable>(
    mut drawing: Drawing,
    routes: &R,
    job: &Job,
    plan: &mut Plan,
    table: &mut T,
    call: Call,
) -> (Sheet, Answer)
    ensures { record { answer = result.1; sheet = sheet_of result.0 plan.new (T.meaning table.new) } ≡ call_drawing (job_of job.now) (net_of (R.over routes.now)) (R.route routes.now) (state drawing.count plan.old (T.meaning table.old)) call }
{
    let answer = match call {
        Call::Place { task, machine } => {
            let placed = drawing.place(routes, job, plan, table, task, machine);
            placed.map_or_else(Answer::Refused, Answer::Finish)
        }
        Call::Try { task, machine } => {
            return try_on(drawing, routes, job, plan, table, task, machine);
        }
        Call::TakeBack => {
            let taken = drawing.take_back(routes, job, plan, table);
            taken.map_or_else(Answer::Refused, Answer::Task)
        }
        Call::Fill => {
            let filled = drawing.fill(routes, job, plan, table);
            filled.map_or_else(Answer::Refused, Answer::Length)
        }
        Call::Keep | Call::Strike => Answer::NotAllowed,
    };
    (Sheet::Drawing(drawing), answer)
}

/// A call on a sheet on trial. Only keep and strike are allowed.
fn call_on_trial<R: Routes, T: Writable>(
    trial: OnTrial,
    routes: &R,
    job: &Job,
    plan: &mut Plan,
    table: &mut T,
    call: Call,
) -> (Sheet, Answer)
    ensures { record { answer = result.1; sheet = sheet_of result.0 plan.new (T.meaning table.new) } ≡ call_on_trial (job_of job.now) (net_of (R.over routes.now)) (R.route routes.now) (state trial.count plan.old (T.meaning table.old)) call }
{
    match call {
        Call::Keep => (Sheet::Drawing(trial.keep()), Answer::Kept),
        Call::Strike => {
            let (drawing, struck) = trial.strike(routes, job, plan, table);
            (
                Sheet::Drawing(drawing),
                struck.map_or_else(Answer::Refused, Answer::Task),
            )
        }
        Call::Place { .. } | Call::Try { .. } | Call::TakeBack | Call::Fill => {
            (Sheet::OnTrial(trial), Answer::NotAllowed)
        }
    }
}

/// Carries out one call. What the sheet does not allow changes nothing.
pub(crate) fn carry_out<R: Routes, T: Writable>(
    sheet: Sheet,
    routes: &R,
    job: &Job,
    plan: &mut Plan,
    table: &mut T,
    call: Call,
) -> (Sheet, Answer)
    ensures { record { answer = result.1; sheet = sheet_of result.0 plan.new (T.meaning table.new) } ≡ carry_out (job_of job.now) (net_of (R.over routes.now)) (R.route routes.now) (sheet_of sheet plan.old (T.meaning table.old)) call }
{
    match sheet {
        Sheet::Drawing(drawing) => call_drawing(drawing, routes, job, plan, table, call),
        Sheet::OnTrial(trial) => call_on_trial(trial, routes, job, plan, table, call),
    }
}
