//! The bottom levels of a job's tasks.
ghost use Rattle.std.specs.Prelude.{◌≡◌, ℕ, ◌+◌, ◌^◌, ◌<◌, ◌≤◌, EachIndex, length, map, slice_index};
ghost use Rattle.model.specs.Data.{job_of, task_count};
ghost use Rattle.planner.specs.Edges.{outgoing};
ghost use Rattle.planner.specs.Levels.{greatest, bottom_level};

use model::Job;
use model::plan::TASK_ROWS;

/// The greatest of volume plus level over the edges out of task `t`, or 0.
fn longest_on(job: &Job, levels: &[u64], t: usize) -> u64
    requires rows { length levels.now ≡ 128 }
    requires low { EachIndex levels.now (λ k. slice_index levels.now k < 2 ^ 63) }
    ensures value { result ≡ greatest (map (λ e. e.volume + slice_index levels.now e.to) (outgoing (job_of job.now).edges t)) }
    ensures low { (most : ℕ) → EachIndex levels.now (λ k. slice_index levels.now k ≤ most) → result ≤ most + 2 ^ 32 }
{
    let mut longest = 0;
    for edge in job.edges() {
        if edge.from == t {
            longest = longest.max(u64::from(edge.volume) + levels[edge.to]);
        }
    }
    longest
}

/// The bottom level of each task; 0 past the tasks.
pub(crate) fn bottom_levels(job: &Job) -> [u64; TASK_ROWS]
    ensures { (t : ℕ) → slice_index result t ≡ bottom_level (job_of job.now) t }
{
    let mut levels = [0; TASK_ROWS];
    // An edge leads to a higher task, whose level is known then.
    for t in (0..job.task_count()).rev() {
        levels[t] = u64::from(job.work(t)) + longest_on(job, &levels, t);
    }
    levels
}
