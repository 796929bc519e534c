//! How much of a job a plan does, and how long it takes.
ghost use Rattle.std.specs.Prelude.{◌≡◌, ◌^◌, ◌<◌, ◌≤◌};
ghost use Rattle.model.specs.Data.{job_of, net_of, task_length, transfer_length};
ghost use Rattle.model.specs.Plans.{plan_of, task_booking, finish, placed_count, plan_length};

use super::{Placement, Plan};
use crate::booking::Booking;
use crate::job::Job;
use crate::network::Network;
use crate::speed::ticks;
use crate::tick::Tick;

/// How long a task takes on a station.
pub fn task_length(job: &Job, network: &Network, t: usize, station: usize) -> Tick
    ensures { result ≡ task_length (job_of job.now) (net_of network.now) t station }
{
    ticks(job.work(t), network.machine_speed(station))
}

/// How long a transfer of a volume takes on a link.
pub fn transfer_length(network: &Network, volume: u32, link: usize) -> Tick
    ensures { result ≡ transfer_length (net_of network.now) volume link }
{
    ticks(volume, network.link_speed(link))
}

/// The booking of a task that is placed so.
pub fn task_booking(job: &Job, network: &Network, t: usize, row: Placement) -> Booking
    ensures { result ≡ task_booking (job_of job.now) (net_of network.now) t row }
{
    Booking {
        resource: row.station,
        start: row.start,
        length: task_length(job, network, t, row.station),
    }
}

/// When a task that is placed so is done.
pub fn finish(job: &Job, network: &Network, t: usize, row: Placement) -> u64
    ensures value { result ≡ finish (job_of job.now) (net_of network.now) t row }
    ensures fits { result < 2 ^ 33 }
{
    task_booking(job, network, t, row).end()
}

/// How many tasks are placed.
#[tactic(auto, using(crate::proofs::Counts::placed_by))]
pub fn placed_count(plan: &Plan) -> usize
    ensures { result ≡ placed_count (plan_of plan.now) }
{
    plan.tasks.iter().filter(|row| row.is_some()).count()
}

/// The length of a plan: the greatest finish of a placed task, or 0.
pub fn plan_length(job: &Job, network: &Network, plan: &Plan) -> u64
    ensures { result ≡ plan_length (job_of job.now) (net_of network.now) (plan_of plan.now) }
{
    // A loop, since a task's number goes into its finish, and the greatest of none is 0.
    let mut latest: u64 = 0;
    for (t, row) in plan.tasks.iter().enumerate() {
        if let Some(row) = row {
            latest = latest.max(finish(job, network, t, *row));
        }
    }
    latest
}
