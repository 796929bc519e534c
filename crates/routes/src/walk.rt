//! The tests of one written route.
ghost use Rattle.std.specs.Prelude.{◌≡◌};
ghost use Rattle.model.specs.Data.{net_of};
ghost use Rattle.routes.specs.Walks.{is_walk, uses, is_fresh, is_route};

use crate::hop::Hop;
use model::Network;
use model::plan::MOST_HOPS;

/// Whether each hop's link carries from the station left to the one reached, and the last hop reaches `to`.
fn is_walk(network: &Network, from: usize, to: usize, hops: &[Hop]) -> bool
    ensures { result ≡ is_walk (net_of network.now) from to hops.now }
{
    match hops {
        [] => from == to,
        [hop, later @ ..] => {
            network.carries(hop.link, from, hop.station) && is_walk(network, hop.station, to, later)
        }
    }
}

/// Whether one of `hops` is over `link`.
fn uses(link: usize, hops: &[Hop]) -> bool
    ensures { result ≡ uses link hops.now }
{
    hops.iter().any(|hop| hop.link == link)
}

/// Whether no two of `hops` are over the same link.
fn is_fresh(hops: &[Hop]) -> bool
    ensures { result ≡ is_fresh hops.now }
{
    match hops {
        [] => true,
        [hop, later @ ..] => !uses(hop.link, later) && is_fresh(later),
    }
}

/// Whether `hops` are a route from `from` to `to`, another station.
pub(crate) fn is_route(network: &Network, from: usize, to: usize, hops: &[Hop]) -> bool
    ensures { result ≡ is_route (net_of network.now) from to hops.now }
{
    (1..=MOST_HOPS).contains(&hops.len()) && is_walk(network, from, to, hops) && is_fresh(hops)
}
