//! What searched routes answer.
ghost use Rattle.std.specs.Prelude.{◌≡◌, ◌==◌, length};
ghost use Rattle.std.specs.Option.{option_map};
ghost use Rattle.std.specs.List.{find};
ghost use Rattle.model.specs.Data.{net_of};
ghost use Rattle.routes.specs.Hops.{hop_at};
ghost use Rattle.routes.specs.Search.{route_among, searched_route};
ghost use Rattle.routes.specs.Origins.{HasOrigins, search_known};
ghost use Rattle.routes.specs.Shown.SearchedKept.{searched_keeps};

use super::SearchedRoutes;
use crate::hop::Hop;
use crate::interface::Routes;
use crate::length::Length;
use crate::settled::Settled;
use model::Network;

/// The settled station of number `t`.
fn settled_at<L: Length>(settled: &[Settled<L>], t: usize) -> Option<Settled<L>>
    ensures { result ≡ find (λ u. u.station == t) settled.now }
{
    settled.iter().find(|a| a.station == t).copied()
}

/// The hop at place `i` of the way to station `t`, found by walking back from `t`.
fn hop_among<L: Length>(settled: &[Settled<L>], t: usize, i: usize) -> Option<Hop>
    requires { HasOrigins settled.now }
    ensures { result ≡ hop_at (route_among settled.now t) i }
{
    let mut a = settled_at(settled, t)?;
    if i >= a.hops {
        return None;
    }
    // One step back for each hop that comes after the one asked for; a counted loop, since a step reads the place of the next.
    for _back in i + 1..a.hops {
        a = settled[a.from];
    }
    Some(Hop {
        link: a.link,
        station: a.station,
    })
}

impl<L: Length> SearchedRoutes<L> {
    /// The stations settled from `from`; none where the network has no such station.
    fn settled_from(&self, from: usize) -> &[Settled<L>]
        ensures { result.now ≡ search_known L.before L.longer (net_of self.now.network) L.starting from }
    {
        self.settled.get(from).map_or(&[], |settled| settled)
    }
}

impl<L: Length> Routes for SearchedRoutes<L> {
    ghost over = { λ r. r.network };

    ghost route = { λ r. searched_route L.before L.longer (net_of r.network) L.starting };

    ghost keeps = { λ r. searched_keeps L.before L.longer L.starting L.order L.laws r.network };

    fn network(&self) -> &Network {
        &self.network
    }

    fn route_length(&self, from: usize, to: usize) -> Option<usize> {
        settled_at(self.settled_from(from), to).map(|goal| goal.hops)
    }

    fn hop(&self, from: usize, to: usize, i: usize) -> Option<Hop> {
        hop_among(self.settled_from(from), to, i)
    }
}
