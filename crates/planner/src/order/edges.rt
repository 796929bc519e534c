//! Rules B and C, and that the goals of filled transfers are steps: what is asked of each edge.
ghost use Rattle.std.specs.Prelude.{◌≡◌, ◌||◌};
ghost use Rattle.std.specs.List.{list_all, enumerate_from};
ghost use Rattle.model.specs.Data.{job_of};
ghost use Rattle.model.specs.Plans.{plan_of, starts};
ghost use Rattle.routes.specs.RoutedPlans.{on};
ghost use Rattle.planner.specs.Order.{is_empty, is_among, keeps_predecessors, keeps_routes};

use super::steps::StepSet;
use model::{Job, Plan};
use routes::{RoutedPlan, Routes};

/// Whether the goal of each filled transfer is a step.
pub(crate) fn goals_are_steps(job: &Job, plan: &Plan, steps: &StepSet<'_>) -> bool
    ensures { result ≡ list_all (λ (i, e). is_empty (starts (plan_of plan.now) i) || is_among steps.now.steps.now e.to) (enumerate_from 0 (job_of job.now).edges) }
{
    job.edges().iter().enumerate().all(|(i, edge)| plan.start_count(i) == 0
        || steps.contains(edge.to))
}

/// Whether each predecessor of a placed task is placed.
pub(crate) fn keeps_predecessors(job: &Job, plan: &Plan) -> bool
    ensures { result ≡ keeps_predecessors (job_of job.now) (plan_of plan.now) }
{
    job.edges().iter().all(|edge| plan.task(edge.to).is_none() || plan.task(edge.from).is_some())
}

/// Whether each edge has a route or needs none, and as many starts as hops.
pub(crate) fn keeps_routes<R: Routes>(routed: &RoutedPlan<'_, R>) -> bool
    ensures { result ≡ on routed.now (λ J N ρ P. keeps_routes J ρ P) }
{
    routed.job.edges().iter().enumerate().all(|(i, edge)| routed.way_length(*edge)
        == Some(routed.plan.start_count(i)))
}
