//! Lengths in whole ticks.
ghost use Rattle.queue_tests.specs.Orders.{ticks_below};
ghost use Rattle.queue_tests.specs.TotalOrders.{ticks_order};

use queue::Rank;

/// A length in whole ticks.
#[derive(Clone, Copy, PartialEq, Eq, PartialOrd, Ord)]
pub struct Ticks {
    pub count: u32,
}

impl Rank for Ticks {
    ghost before = { ticks_below };

    ghost order = { ticks_order };

    fn precedes(&self, other: &Ticks) -> bool {
        self < other
    }
}
