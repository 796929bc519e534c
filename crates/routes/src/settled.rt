//! A station that the search has settled, and ways that wait to be settled.
ghost use Rattle.std.specs.Prelude.{◌≡◌};
ghost use Rattle.routes.specs.Search.{source};
ghost use Rattle.routes.specs.WayOrder.{lower_way, way_before};
ghost use Rattle.routes.specs.Shown.WayOrders.{way_order};

use crate::length::Length;
use queue::Rank;

/// The way to a station, by its last hop: from the station settled at place `from`, over `link`.
/// The source is settled at place 0, and no hop leads to it.
#[derive(Clone, Copy)]
pub struct Settled<L> {
    pub station: usize,
    /// The length of the way.
    pub distance: L,
    pub from: usize,
    pub link: usize,
    /// How many hops the way has.
    pub hops: usize,
}

impl<L: Length> Settled<L> {
    /// The station from which a search begins.
    pub(crate) fn source(station: usize) -> Settled<L>
        ensures { result ≡ source L.starting station }
    {
        Settled {
            station,
            distance: L::start(),
            from: 0,
            link: 0,
            hops: 0,
        }
    }
}

/// Whether the numbers of `a` come before those of `b`: the station, the place of the station before it, the link.
#[tactic(auto, unfolding(crate::specs::WayOrder::lower_way))]
fn is_lower<L: Length>(a: &Settled<L>, b: &Settled<L>) -> bool
    ensures { result ≡ lower_way a.now b.now }
{
    (a.station, a.from, a.link, a.hops) < (b.station, b.from, b.link, b.hops)
}

/// The better length first; of equal ones the lower station, then the one settled from first, then the lower link.
/// The order is not that of `Ord`, by which values may be equal and yet differ.
impl<L: Length> Rank for Settled<L> {
    ghost before = { way_before L.before };

    ghost order = { way_order L.before L.order };

    fn precedes(&self, other: &Settled<L>) -> bool {
        self.distance.precedes(&other.distance)
            || (!other.distance.precedes(&self.distance) && is_lower(self, other))
    }
}
