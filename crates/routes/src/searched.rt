//! Routes found by search.
ghost use Rattle.model.specs.Data.{net_of};
ghost use Rattle.routes.specs.Searched.{TellsSearch};

use crate::length::Length;
use crate::settled::Settled;
use model::Network;

pub mod ask;
pub mod kinds;
pub mod make;
mod search;

/// The best routes of `network` by the kind of length `L`: for each station the stations settled from it, in order.
#[derive(Drop)]
pub struct SearchedRoutes<L: Length> {
    network: Network,
    settled: Vec<Vec<Settled<L>>>,
    ghost told: { TellsSearch L.before L.longer L.starting (net_of network) settled.items },
}
