//! Filling a plan: the tasks that are not placed are placed by falling bottom level.
ghost use Rattle.std.specs.Prelude.{◌≡◌};
ghost use Rattle.model.specs.Data.{job_of, net_of};
ghost use Rattle.model.specs.Plans.{plan_of};
ghost use Rattle.planner.specs.Calls.{left_with};
ghost use Rattle.planner.specs.Filling.{by_priority, unplaced_tasks, filled, fill};
ghost use Rattle.planner.specs.Levels.{bottom_level};
ghost use Rattle.planner.specs.Outcomes.{DrawState};
ghost use Rattle.planner.specs.Reached.{Reached, ReachedFrom, run_to};
ghost use Rattle.planner.specs.States.{state, Ordered};

use crate::first_finish::place_first;
use crate::order::is_in_order;
use crate::sheet::Drawing;
use crate::undo::take_back_step;
use crate::waiting::{Waiting, waiting_tasks};
use model::plan::TASK_ROWS;
use model::plan::measures::plan_length;
use model::{Job, Plan, Refusal, check};
use routes::{RoutedPlan, Routes};
use timetable::Writable;

/// Places the tasks that are not placed. Where one is refused, those before it stay placed.
fn place_waiting<R: Routes, T: Writable>(
    sheet: &mut Drawing,
    routes: &R,
    job: &Job,
    plan: &mut Plan,
    table: &mut T,
) -> Result<(), Refusal>
    requires { Ordered (job_of job.now) (net_of (R.over routes.now)) (R.route routes.now) (state sheet.old.count plan.old (T.meaning table.old)) }
    ensures filled { filled (job_of job.now) (net_of (R.over routes.now)) (R.route routes.now) (by_priority (bottom_level (job_of job.now)) (unplaced_tasks (job_of job.now) (plan_of plan.old))) (state sheet.old.count plan.old (T.meaning table.old)) ≡ run_to result (state sheet.new.count plan.new (T.meaning table.new)) }
    ensures reached { Reached (job_of job.now) (net_of (R.over routes.now)) (R.route routes.now) (state sheet.old.count plan.old (T.meaning table.old)) (state sheet.new.count plan.new (T.meaning table.new)) }
{
    let mut slots = [Waiting { level: 0, task: 0 }; TASK_ROWS];
    let mut waiting = waiting_tasks(job, plan, &mut slots);
    while let Some(next) = waiting.pop() {
        place_first(sheet, routes, job, plan, table, next.task)?;
    }
    Ok(())
}

/// Takes back the newest steps until `count` are left.
fn take_back_to<R: Routes, T: Writable>(
    sheet: &mut Drawing,
    routes: &R,
    job: &Job,
    plan: &mut Plan,
    table: &mut T,
    count: usize,
)
    requires { (S : DrawState) × ReachedFrom (job_of job.now) (net_of (R.over routes.now)) (R.route routes.now) count (state sheet.old.count plan.old (T.meaning table.old)) S }
    ensures { (S : DrawState) → ReachedFrom (job_of job.now) (net_of (R.over routes.now)) (R.route routes.now) count (state sheet.old.count plan.old (T.meaning table.old)) S → state sheet.new.count plan.new (T.meaning table.new) ≡ S }
{
    while sheet.count > count {
        let _ = take_back_step(sheet, routes, job, plan, table);
    }
}

impl Drawing {
    /// Places the tasks that are not placed, by falling bottom level, each where it finishes first,
    /// and gives the length of the plan. A refusal leaves everything as it was.
    pub fn fill<R: Routes, T: Writable>(
        &mut self,
        routes: &R,
        job: &Job,
        plan: &mut Plan,
        table: &mut T,
    ) -> Result<u64, Refusal>
        ensures { left_with result (state self.new.count plan.new (T.meaning table.new)) ≡ fill (job_of job.now) (net_of (R.over routes.now)) (R.route routes.now) (state self.old.count plan.old (T.meaning table.old)) }
    {
        let is_ordered = is_in_order(self.count, &RoutedPlan::new(routes, job, plan), table);
        check(is_ordered, Refusal::NotInOrder)?;
        let count = self.count;
        if let Err(refusal) = place_waiting(self, routes, job, plan, table) {
            take_back_to(self, routes, job, plan, table, count);
            return Err(refusal);
        }
        Ok(plan_length(job, routes.network(), plan))
    }
}
