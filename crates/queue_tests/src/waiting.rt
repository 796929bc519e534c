//! Stations that wait, by lengths of any type with an order.
ghost use Rattle.std.specs.Prelude.{◌≡◌, ◌≤◌, [], length, MatchOption};
ghost use Rattle.queue.specs.Orders.{IsFirst};
ghost use Rattle.queue_tests.specs.Orders.{waiting_before};
ghost use Rattle.queue_tests.specs.TotalOrders.{waiting_order};

use crate::first::first_of;
use queue::Rank;

/// The shortest first, and of one length the lowest station.
#[derive(Clone, Copy)]
pub struct Waiting<V> {
    pub length: V,
    pub station: u8,
}

impl<V: Rank> Rank for Waiting<V> {
    ghost before = { waiting_before V.before };

    ghost order = { waiting_order V.before V.order };

    fn precedes(&self, other: &Waiting<V>) -> bool {
        self.length.precedes(&other.length)
            || (!other.length.precedes(&self.length) && self.station < other.station)
    }
}

/// The first of the stations, where there are slots for all.
pub fn nearest<V: Rank>(slots: &mut [Waiting<V>], stations: &[Waiting<V>]) -> Option<Waiting<V>>
    ensures { length stations.now ≤ length slots.old
        → MatchOption result (stations.now ≡ []) (IsFirst (waiting_before V.before) stations.now) }
{
    first_of(slots, stations)
}
