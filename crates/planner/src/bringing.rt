//! Booking the transfers into a task.
ghost use Rattle.std.specs.Prelude.{◌≡◌, ◌+◌, ◌<◌, ◌≤◌, true, false, [], length, IfOk, None};
ghost use Rattle.model.specs.Data.{job_of, net_of, station_count};
ghost use Rattle.model.specs.Plans.{plan_of, with_starts};
ghost use Rattle.routes.specs.Hops.{hops_of};
ghost use Rattle.planner.specs.Booked.{Extends, brought_so, brought};
ghost use Rattle.planner.specs.Edges.{incoming, is_placed, way_to};
ghost use Rattle.planner.specs.Drawing.{without_transfers};
ghost use Rattle.planner.specs.Placing.{bring, bring_all, unplaced_predecessor, bookings_needed};

use crate::transfers::{Transfer, carry};
use model::plan::measures::finish;
use model::{Edge, Job, Plan, Refusal};
use routes::Routes;
use timetable::Writable;

/// Books the transfer of a numbered edge to a machine and writes its row. `ready` is when all that was brought before is there;
/// gives when this is there too. Where a hop has no start, the bookings before it stand.
fn bring<R: Routes, T: Writable>(
    routes: &R,
    job: &Job,
    plan: &mut Plan,
    table: &mut T,
    machine: usize,
    numbered: (usize, Edge),
    ready: u64,
) -> Result<u64, Refusal>
    requires known { numbered.0 < 224 }
    requires station { machine < station_count (net_of (R.over routes.now)) }
    requires placed { is_placed (plan_of plan.old) numbered.1.from ≡ true }
    requires room { length (T.meaning table.old).bookings + length (hops_of (way_to (R.route routes.now) (plan_of plan.old) machine numbered.1)) ≤ (T.meaning table.old).most }
    ensures answer { brought result (plan_of plan.new) (T.meaning table.new) ≡ bring (job_of job.now) (net_of (R.over routes.now)) (R.route routes.now) machine numbered (brought_so (plan_of plan.old) (T.meaning table.old) ready) }
    ensures row { with_starts (plan_of plan.new) numbered.0 [] ≡ with_starts (plan_of plan.old) numbered.0 [] }
    ensures kept { Extends (T.meaning table.new) (T.meaning table.old) }
    ensures few { length (T.meaning table.new).bookings ≤ length (T.meaning table.old).bookings + length (hops_of (way_to (R.route routes.now) (plan_of plan.old) machine numbered.1)) }
{
    let (i, edge) = numbered;
    let origin = plan.task(edge.from).unwrap();
    let transfer = Transfer {
        volume: edge.volume,
        departure: finish(job, routes.network(), edge.from, origin),
        from: origin.station,
        to: machine,
    };
    let booked = carry(routes, table, transfer)?;
    plan.set_transfer(i, booked.row).unwrap();
    Ok(ready.max(booked.arrival))
}

/// Books the transfers of all edges into a task to a machine and writes their rows; gives when all that is brought is there.
/// Where a hop has no start, the bookings and rows before it stand.
pub(crate) fn bring_all<R: Routes, T: Writable>(
    routes: &R,
    job: &Job,
    plan: &mut Plan,
    table: &mut T,
    task: usize,
    machine: usize,
) -> Result<u64, Refusal>
    requires station { machine < station_count (net_of (R.over routes.now)) }
    requires placed { unplaced_predecessor (job_of job.now) (plan_of plan.old) task ≡ None }
    requires room { length (T.meaning table.old).bookings + bookings_needed (job_of job.now) (R.route routes.now) (plan_of plan.old) task machine ≤ (T.meaning table.old).most }
    requires blank { without_transfers (job_of job.now) task (plan_of plan.old) ≡ plan_of plan.old }
    ensures answer { brought result (plan_of plan.new) (T.meaning table.new) ≡ bring_all (job_of job.now) (net_of (R.over routes.now)) (R.route routes.now) machine (incoming (job_of job.now) task) (brought_so (plan_of plan.old) (T.meaning table.old) 0) }
    ensures rows { without_transfers (job_of job.now) task (plan_of plan.new) ≡ plan_of plan.old }
    ensures kept { Extends (T.meaning table.new) (T.meaning table.old) }
    ensures room { IfOk result (λ ready. length (T.meaning table.new).bookings < (T.meaning table.new).most) }
{
    let mut ready = 0;
    for (i, edge) in job.edges().iter().enumerate() {
        if edge.to == task {
            ready = bring(routes, job, plan, table, machine, (i, *edge), ready)?;
        }
    }
    Ok(ready)
}
