//! What placing a task on a machine needs: its predecessors placed, a route for each incoming edge, and room for its bookings.
ghost use Rattle.std.specs.Prelude.{◌≡◌, ◌≤◌, length};
ghost use Rattle.std.specs.Option.{option_map};
ghost use Rattle.model.specs.Data.{job_of};
ghost use Rattle.model.specs.Plans.{plan_of};
ghost use Rattle.routes.specs.RoutedPlans.{on};
ghost use Rattle.planner.specs.Booked.{needed};
ghost use Rattle.planner.specs.Edges.{way_to};
ghost use Rattle.planner.specs.Placing.{unplaced_predecessor};

use model::{Edge, Job, Plan, Refusal};
use routes::{RoutedPlan, Routes};

/// The lowest predecessor of a task that is not placed.
pub(crate) fn unplaced_predecessor(job: &Job, plan: &Plan, task: usize) -> Option<usize>
    ensures { result ≡ unplaced_predecessor (job_of job.now) (plan_of plan.now) task }
{
    job.edges()
        .iter()
        .enumerate()
        .filter(|(_, edge)| edge.to == task)
        .map(|(_, edge)| edge.from)
        .filter(|origin| plan.task(*origin).is_none())
        .min()
}

/// How many hops an edge is booked on where its goal is placed on `machine`;
/// `None` where there is no route from its origin.
pub(crate) fn hops_to<R: Routes>(
    routed: &RoutedPlan<'_, R>,
    edge: Edge,
    machine: usize,
) -> Option<usize>
    ensures { result ≡ option_map length (on routed.now (λ J N ρ P. way_to ρ P machine edge)) }
{
    match routed.plan.task(edge.from) {
        Some(origin) if origin.station != machine => {
            routed.routes.route_length(origin.station, machine)
        }
        _ => Some(0),
    }
}

/// How many bookings a task takes on a machine. Refuses the lowest edge into it that has no route there.
pub(crate) fn bookings_needed<R: Routes>(
    routed: &RoutedPlan<'_, R>,
    task: usize,
    machine: usize,
) -> Result<usize, Refusal>
    ensures { result ≡ on routed.now (λ J N ρ P. needed J ρ P task machine) }
{
    let mut needed = 1;
    for (i, edge) in routed.job.edges().iter().enumerate() {
        if edge.to == task {
            let Some(hops) = hops_to(routed, *edge, machine) else {
                return Err(Refusal::NoRoute(i));
            };
            needed += hops;
        }
    }
    Ok(needed)
}
