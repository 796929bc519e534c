//! The length of a way by how slow its links are.
use crate::length::Length;
use model::Link;
use model::speed::ticks;
use queue::Rank;

/// How slow the links of a way are together: a million by the speed of each, rounded up.
/// The sum stops at the greatest number of 32 bits, which no route comes near.
#[derive(Clone, Copy, Debug, PartialEq, Eq, PartialOrd, Ord)]
pub struct Slowness {
    pub total: u32,
}

impl Rank for Slowness {
    ghost use Rattle.routes.specs.Kinds.{faster};
    ghost use Rattle.routes.specs.Shown.KindLaws.{faster_order};

    ghost before = { faster };

    ghost order = { faster_order };

    fn precedes(&self, other: &Slowness) -> bool {
        self < other
    }
}

impl Length for Slowness {
    ghost use Rattle.routes.specs.Kinds.{no_delay, slower_by};
    ghost use Rattle.routes.specs.Shown.KindLaws.{slowness_laws};

    ghost starting = { no_delay };

    ghost longer = { slower_by };

    ghost laws = { slowness_laws };

    fn start() -> Slowness {
        Slowness { total: 0 }
    }

    fn lengthen(&self, link: &Link) -> Slowness {
        Slowness {
            total: self.total.saturating_add(ticks(1_000_000, link.speed)),
        }
    }
}
