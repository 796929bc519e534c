//! The maker of searched routes.
ghost use Rattle.std.specs.Prelude.{◌≡◌, IfOk, vec_len};
ghost use Rattle.model.specs.Data.{net_of};
ghost use Rattle.routes.specs.Search.{searched_route};
ghost use Rattle.routes.specs.Best.{BestRoutes, InOrderFromEach};

use super::SearchedRoutes;
use super::search::{MOST_WAYS, search_from};
use crate::length::Length;
use crate::settled::Settled;
use model::Network;
use std::alloc::{AllocError, Global};

/// Room for the ways that wait.
fn slots<L: Length>(alloc: Global) -> Result<Vec<Settled<L>>, AllocError>
    ensures { IfOk result (λ v. vec_len v ≡ 256) }
{
    vec![in alloc; Settled::source(0); MOST_WAYS]
}

impl<L: Length> SearchedRoutes<L> {
    /// The routes of a network that are best by `L`, if there is memory for them.
    ///
    /// The routes are those of the search; each is a best walk, and is there wherever a walk is; and the search
    /// settles stations best first, each over the hop that is due.
    pub fn new(alloc: Global, network: Network) -> Result<SearchedRoutes<L>, AllocError>
        ensures kept { IfOk result (λ r. r.network ≡ network) }
        ensures best { IfOk result (λ r. BestRoutes L.before L.longer (net_of r.network) L.starting (searched_route L.before L.longer (net_of r.network) L.starting)) }
        ensures ordered { IfOk result (λ r. InOrderFromEach L.before L.longer (net_of r.network) L.starting) }
    {
        let mut slots = slots(alloc)?;
        // A loop of pushes: each search changes `slots`, which no proof of `map` and `try_collect` was found to follow.
        let mut settled = Vec::new(alloc);
        for s in 0..network.station_count() {
            settled.push(search_from(alloc, &network, s, &mut slots)?)?;
        }
        Ok(SearchedRoutes { network, settled })
    }
}
