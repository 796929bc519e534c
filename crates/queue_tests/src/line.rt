//! A queue that another struct holds, of a type that is a parameter.
ghost use Rattle.std.specs.Prelude.{◌≡◌, [], MatchOption};
ghost use Rattle.queue.specs.Items.{items};
ghost use Rattle.queue.specs.Orders.{IsFirst};
ghost use Rattle.queue_tests.specs.Orders.{waiting_before};

use crate::waiting::Waiting;
use queue::{Queue, Rank};

/// Stations in a line. The bound is repeated, since a field of a type with a parameter asks for it.
#[derive(Drop)]
pub struct Line<'a, V: Rank>
where
    Waiting<V>: Rank,
{
    pub queue: Queue<'a, Waiting<V>>,
}

impl<'a, V: Rank> Line<'a, V>
where
    Waiting<V>: Rank,
{
    pub fn new(slots: &'a mut [Waiting<V>]) -> Line<'a, V>
        ensures { items result.queue ≡ [] }
    {
        Line {
            queue: Queue::new(slots),
        }
    }

    pub fn next(&mut self) -> Option<Waiting<V>>
        ensures { MatchOption result (items self.old.queue ≡ [])
            (IsFirst ⟦<Waiting<V> as Rank>⟧.before (items self.old.queue)) }
    {
        self.queue.pop()
    }
}

/// The next of a line: to a caller that knows the lengths, the order is theirs.
pub fn next_in_line<V: Rank>(line: &mut Line<V>) -> Option<Waiting<V>>
    ensures { MatchOption result (items line.old.queue ≡ [])
        (IsFirst (waiting_before V.before) (items line.old.queue)) }
{
    line.next()
}
