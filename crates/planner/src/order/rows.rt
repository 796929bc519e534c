//! Rule A, and that the placed tasks are steps: what is asked of each row.
ghost use Rattle.std.specs.Prelude.{◌≡◌, ◌||◌, true, drop, length, is_none};
ghost use Rattle.std.specs.List.{list_all, enumerate_from};
ghost use Rattle.std.specs.Option.{option_map_or};
ghost use Rattle.model.specs.Data.{job_of, net_of, task_count, is_machine};
ghost use Rattle.model.specs.Plans.{plan_of};
ghost use Rattle.planner.specs.Order.{is_empty, is_among, keeps_rows};

use super::steps::StepSet;
use model::plan::{TASK_ROWS, TRANSFER_ROWS};
use model::{Job, Network, Plan};

/// Whether each placed task is a step.
pub(crate) fn placed_are_steps(plan: &Plan, steps: &StepSet<'_>) -> bool
    ensures { result ≡ list_all (λ (t, row). is_none row || is_among steps.now.steps.now t) (enumerate_from 0 (plan_of plan.now).tasks) }
{
    (0..TASK_ROWS).all(|t| plan.task(t).is_none() || steps.contains(t))
}

/// Whether no row after those of the job's tasks is filled.
fn no_stray_task(job: &Job, plan: &Plan) -> bool
    ensures { result ≡ list_all is_none (drop (task_count (job_of job.now)) (plan_of plan.now).tasks) }
{
    (job.task_count()..TASK_ROWS).all(|t| plan.task(t).is_none())
}

/// Whether no transfer row after those of the job's edges is filled.
fn no_stray_transfer(job: &Job, plan: &Plan) -> bool
    ensures { result ≡ list_all is_empty (drop (length (job_of job.now).edges) (plan_of plan.now).transfers) }
{
    (job.edge_count()..TRANSFER_ROWS).all(|i| plan.start_count(i) == 0)
}

/// Whether each placed task is on a machine.
fn on_machines(network: &Network, plan: &Plan) -> bool
    ensures { result ≡ list_all (λ row. option_map_or (λ p. is_machine (net_of network.now) p.station) row true) (plan_of plan.now).tasks }
{
    (0..TASK_ROWS).all(|t| {
        plan.task(t)
            .map_or(true, |row| network.is_machine(row.station))
    })
}

/// Whether each filled row names a task or an edge of the job, and each placed task's station is a machine.
pub(crate) fn keeps_rows(job: &Job, network: &Network, plan: &Plan) -> bool
    ensures { result ≡ keeps_rows (job_of job.now) (net_of network.now) (plan_of plan.now) }
{
    no_stray_task(job, plan) && no_stray_transfer(job, plan) && on_machines(network, plan)
}
