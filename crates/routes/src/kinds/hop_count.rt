//! The length of a way by how many hops it has.
use crate::length::Length;
use model::Link;
use queue::Rank;

/// How many hops a way has. The count stops at the greatest number of 32 bits, which no route comes near.
#[derive(Clone, Copy, Debug, PartialEq, Eq, PartialOrd, Ord)]
pub struct HopCount {
    pub count: u32,
}

impl Rank for HopCount {
    ghost use Rattle.routes.specs.Kinds.{fewer};
    ghost use Rattle.routes.specs.Shown.KindLaws.{fewer_order};

    ghost before = { fewer };

    ghost order = { fewer_order };

    fn precedes(&self, other: &HopCount) -> bool {
        self < other
    }
}

impl Length for HopCount {
    ghost use Rattle.routes.specs.Kinds.{no_hop, one_hop_more};
    ghost use Rattle.routes.specs.Shown.KindLaws.{hop_count_laws};

    ghost starting = { no_hop };

    ghost longer = { one_hop_more };

    ghost laws = { hop_count_laws };

    fn start() -> HopCount {
        HopCount { count: 0 }
    }

    fn lengthen(&self, _link: &Link) -> HopCount {
        HopCount {
            count: self.count.saturating_add(1),
        }
    }
}
