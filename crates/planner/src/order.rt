//! Whether sheet, plan and timetable belong together.
ghost use Rattle.std.specs.Prelude.{◌≡◌, ◌&&◌, ◌||◌, is_none};
ghost use Rattle.std.specs.List.{list_all, enumerate_from};
ghost use Rattle.model.specs.Data.{job_of};
ghost use Rattle.model.specs.Plans.{plan_of, starts};
ghost use Rattle.routes.specs.RoutedPlans.{on};
ghost use Rattle.planner.specs.Order.{is_empty, is_among, keeps_rows, keeps_predecessors, keeps_routes, belongs, in_order};
ghost use Rattle.planner.specs.States.{state};

use model::{Job, Plan};
use routes::{RoutedPlan, Routes};
use timetable::Askable;

mod bookings;
mod chains;
mod edges;
mod rows;
mod steps;

use steps::StepSet;

/// Whether the placed tasks and the goals of filled transfers are steps.
fn are_steps(job: &Job, plan: &Plan, steps: &StepSet<'_>) -> bool
    ensures { result ≡ (list_all (λ (t, row). is_none row || is_among steps.now.steps.now t) (enumerate_from 0 (plan_of plan.now).tasks) && list_all (λ (i, e). is_empty (starts (plan_of plan.now) i) || is_among steps.now.steps.now e.to) (enumerate_from 0 (job_of job.now).edges)) }
{
    rows::placed_are_steps(plan, steps) && edges::goals_are_steps(job, plan, steps)
}

/// Whether a sheet that counts so many steps belongs to the plan.
pub(crate) fn belongs(count: usize, job: &Job, plan: &Plan) -> bool
    ensures { result ≡ belongs (job_of job.now) count (plan_of plan.now) }
{
    let Some(steps) = StepSet::of(plan) else {
        return false;
    };
    count == plan.step_count() && are_steps(job, plan, &steps)
}

/// Whether rules A, B and C hold.
fn keeps_rules<R: Routes>(routed: &RoutedPlan<'_, R>) -> bool
    ensures { result ≡ on routed.now (λ J N ρ P. keeps_rows J N P && keeps_predecessors J P && keeps_routes J ρ P) }
{
    rows::keeps_rows(routed.job, routed.routes.network(), routed.plan)
        && edges::keeps_predecessors(routed.job, routed.plan)
        && edges::keeps_routes(routed)
}

/// Whether the sheet counts the plan's steps, these are the placed tasks, rules A, B and C hold,
/// and the timetable's list is the plan's bookings.
#[tactic(auto, unfolding(crate::specs::Order::in_order))]
pub(crate) fn is_in_order<R: Routes, T: Askable>(
    count: usize,
    routed: &RoutedPlan<'_, R>,
    table: &T,
) -> bool
    ensures { result ≡ on routed.now (λ J N ρ P. in_order J N ρ (state count routed.now.plan.now (T.meaning table.now))) }
{
    belongs(count, routed.job, routed.plan)
        && keeps_rules(routed)
        && bookings::are_booked(routed, table)
}
