//! Routes by the two kinds of length: a maker for each, since each states a theorem of its own in plain numbers.
ghost use Rattle.std.specs.Prelude.{◌≡◌, IfOk};
ghost use Rattle.model.specs.Data.{net_of};
ghost use Rattle.routes.specs.BestKinds.{FewestHops, LeastSlow};
ghost use Rattle.routes.specs.Kinds.{fewer, no_hop, one_hop_more, faster, no_delay, slower_by};
ghost use Rattle.routes.specs.Search.{searched_route};

use super::SearchedRoutes;
use crate::kinds::{HopCount, Slowness};
use model::Network;
use std::alloc::{AllocError, Global};

/// The routes of a network with the fewest hops.
pub fn routes_by_hops(
    alloc: Global,
    network: Network,
) -> Result<SearchedRoutes<HopCount>, AllocError>
    ensures kept { IfOk result (λ r. r.network ≡ network) }
    ensures fewest { IfOk result (λ r. FewestHops (net_of r.network) (searched_route fewer one_hop_more (net_of r.network) no_hop)) }
{
    SearchedRoutes::new(alloc, network)
}

/// The routes of a network whose links are the least slow together.
pub fn routes_by_slowness(
    alloc: Global,
    network: Network,
) -> Result<SearchedRoutes<Slowness>, AllocError>
    ensures kept { IfOk result (λ r. r.network ≡ network) }
    ensures fastest { IfOk result (λ r. LeastSlow (net_of r.network) (searched_route faster slower_by (net_of r.network) no_delay)) }
{
    SearchedRoutes::new(alloc, network)
}
