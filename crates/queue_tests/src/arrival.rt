//! Files that arrive.
ghost use Rattle.queue_tests.specs.Orders.{arrival_before};
ghost use Rattle.queue_tests.specs.TotalOrders.{arrival_order};

use queue::Rank;

/// The earliest first, and at one tick the lowest edge.
#[derive(Clone, Copy, PartialEq, Eq, PartialOrd, Ord)]
pub struct Arrival {
    pub tick: u32,
    pub edge: u8,
}

impl Rank for Arrival {
    ghost before = { arrival_before };

    ghost order = { arrival_order };

    fn precedes(&self, other: &Arrival) -> bool {
        self < other
    }
}
