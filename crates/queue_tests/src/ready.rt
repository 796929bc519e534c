//! Tasks that can run.
ghost use Rattle.std.specs.Prelude.{◌≡◌, ◌≤◌, [], length, MatchOption};
ghost use Rattle.queue.specs.Orders.{IsFirst};
ghost use Rattle.queue_tests.specs.Orders.{ready_before};
ghost use Rattle.queue_tests.specs.TotalOrders.{ready_order};

use crate::first::first_of;
use queue::Rank;
use std::cmp::Reverse;

/// The highest level first, and of one level the lowest task.
#[derive(Clone, Copy)]
pub struct Ready {
    pub level: u32,
    pub task: u8,
}

impl Rank for Ready {
    ghost before = { ready_before };

    ghost order = { ready_order };

    fn precedes(&self, other: &Ready) -> bool {
        (Reverse(self.level), self.task) < (Reverse(other.level), other.task)
    }
}

/// The first of the tasks, where there are slots for all.
pub fn highest(slots: &mut [Ready], tasks: &[Ready]) -> Option<Ready>
    ensures { length tasks.now ≤ length slots.old
        → MatchOption result (tasks.now ≡ []) (IsFirst ready_before tasks.now) }
{
    first_of(slots, tasks)
}
