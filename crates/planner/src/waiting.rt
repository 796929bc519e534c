//! The tasks that wait to be placed.
ghost use Rattle.std.specs.Prelude.{◌≡◌, map, length, IsPermutation};
ghost use Rattle.queue.specs.Items.{items};
ghost use Rattle.model.specs.Data.{job_of};
ghost use Rattle.model.specs.Plans.{plan_of};
ghost use Rattle.planner.specs.Filling.{unplaced_tasks};
ghost use Rattle.planner.specs.Levels.{bottom_level};
ghost use Rattle.planner.specs.Waits.{waits_before, waiting_by};
ghost use Rattle.planner.specs.Shown.WaitingOrders.{waits_order};

use crate::levels::bottom_levels;
use model::{Job, Plan};
use queue::{Queue, Rank};
use std::cmp::Reverse;

/// A task that is not placed, with its bottom level.
#[derive(Clone, Copy)]
pub(crate) struct Waiting {
    pub(crate) level: u64,
    pub(crate) task: usize,
}

/// The highest level first, and of one level the lowest task.
impl Rank for Waiting {
    ghost before = { waits_before };

    ghost order = { waits_order };

    fn precedes(&self, other: &Waiting) -> bool {
        (Reverse(self.level), self.task) < (Reverse(other.level), other.task)
    }
}

/// The tasks that are not placed, in a queue over `slots`.
pub(crate) fn waiting_tasks<'s>(
    job: &Job,
    plan: &Plan,
    slots: &'s mut [Waiting],
) -> Queue<'s, Waiting>
    requires { length slots.old ≡ 128 }
    ensures { IsPermutation (map (waiting_by (bottom_level (job_of job.now))) (unplaced_tasks (job_of job.now) (plan_of plan.now))) (items result) }
{
    let levels = bottom_levels(job);
    let mut queue = Queue::new(slots);
    for task in 0..job.task_count() {
        if plan.task(task).is_none() {
            let level = levels[task];
            queue.push(Waiting { level, task }).unwrap();
        }
    }
    queue
}
