//! Taking the last step back.
ghost use Rattle.std.specs.Prelude.{◌≡◌, ◌≤◌, true, length};
ghost use Rattle.std.specs.List.{flat_map};
ghost use Rattle.model.specs.Data.{job_of, net_of};
ghost use Rattle.model.specs.Plans.{plan_of, last_step};
ghost use Rattle.routes.specs.Legs.{legs};
ghost use Rattle.routes.specs.RoutedPlans.{on};
ghost use Rattle.planner.specs.Bookings.{step_bookings};
ghost use Rattle.planner.specs.Calls.{left_with};
ghost use Rattle.planner.specs.Drawing.{undone, take_back};
ghost use Rattle.planner.specs.Edges.{incoming};
ghost use Rattle.planner.specs.Outcomes.{outcome};
ghost use Rattle.planner.specs.States.{state};

use crate::clearing::{clear_transfers, roll_back};
use crate::order::is_in_order;
use crate::sheet::Drawing;
use model::{Job, Plan, Refusal, check};
use routes::{RoutedPlan, Routes};
use timetable::Writable;

/// How many legs the transfers into a task have.
fn legs_into<R: Routes>(routed: &RoutedPlan<'_, R>, task: usize) -> usize
    ensures value { result ≡ length (flat_map (λ (i, e). on routed.now legs i) (incoming (job_of routed.now.job.now) task)) }
    ensures few { result ≤ 3360 }
{
    routed
        .job
        .edges()
        .iter()
        .enumerate()
        .filter(|(_, edge)| edge.to == task)
        .map(|(i, _)| routed.leg_count(i))
        .sum()
}

/// How many bookings the step of a task has.
#[tactic(auto, using(crate::proofs::Undoing::step_parts))]
fn step_length<R: Routes>(routed: &RoutedPlan<'_, R>, task: usize) -> usize
    ensures { result ≡ length (on routed.now step_bookings task) }
{
    let legs = legs_into(routed, task);
    match routed.plan.task(task) {
        Some(_) => legs + 1,
        None => legs,
    }
}

/// Takes the last step back with all its bookings, and gives its task; the order is not tested.
pub(crate) fn take_back_step<R: Routes, T: Writable>(
    sheet: &mut Drawing,
    routes: &R,
    job: &Job,
    plan: &mut Plan,
    table: &mut T,
) -> Result<usize, Refusal>
    ensures { left_with result (state sheet.new.count plan.new (T.Askable.meaning table.new)) ≡ outcome (state sheet.old.count plan.old (T.Askable.meaning table.old)) (undone (job_of job.now) (net_of (R.Routes.over routes.now)) (R.Routes.route routes.now) (state sheet.old.count plan.old (T.Askable.meaning table.old)) (last_step (plan_of plan.old))) }
{
    let Some(task) = plan.steps().last().copied() else {
        return Err(Refusal::NothingToTakeBack);
    };
    let newest = step_length(&RoutedPlan::new(routes, job, plan), task);
    roll_back(table, table.count().saturating_sub(newest));
    clear_transfers(job, plan, task);
    let _ = plan.clear_task(task);
    plan.remove_step();
    sheet.count = sheet.count.saturating_sub(1);
    Ok(task)
}

impl Drawing {
    /// Takes the last step back with all its bookings, and gives its task. A refusal leaves everything as it was.
    pub fn take_back<R: Routes, T: Writable>(
        &mut self,
        routes: &R,
        job: &Job,
        plan: &mut Plan,
        table: &mut T,
    ) -> Result<usize, Refusal>
        ensures { left_with result (state self.new.count plan.new (T.Askable.meaning table.new)) ≡ take_back (job_of job.now) (net_of (R.Routes.over routes.now)) (R.Routes.route routes.now) (state self.old.count plan.old (T.Askable.meaning table.old)) }
    {
        let is_ordered = is_in_order(self.count, &RoutedPlan::new(routes, job, plan), table);
        check(is_ordered, Refusal::NotInOrder)?;
        take_back_step(self, routes, job, plan, table)
    }
}
