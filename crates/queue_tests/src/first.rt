//! The first of some elements.
ghost use Rattle.std.specs.Prelude.{◌≡◌, ◌≤◌, [], length, MatchOption};
ghost use Rattle.queue.specs.Orders.{IsFirst};

use queue::{Queue, Rank};

/// The first of the items, where there are slots for all.
pub fn first_of<T: Rank>(slots: &mut [T], items: &[T]) -> Option<T>
    ensures { length items.now ≤ length slots.old
        → MatchOption result (items.now ≡ []) (IsFirst T.before items.now) }
{
    let mut queue = Queue::new(slots);
    for item in items {
        queue.push(*item).ok()?;
    }
    queue.pop()
}
