//! What every kind of routes promises.
ghost use Rattle.std.specs.Prelude.{◌≡◌, ℕ, List, length, Option};
ghost use Rattle.std.specs.Option.{option_map};
ghost use Rattle.model.specs.Data.{net_of};
ghost use Rattle.model.specs.declared.network.Network.{Network};
ghost use Rattle.routes.specs.Hops.{hop_at};
ghost use Rattle.routes.specs.Laws.{RouteLaws};
ghost use Rattle.routes.specs.declared.hop.Hop.{Hop};

use crate::hop::Hop;
use model::Network;

/// A way from each station of a network to each other, where there is one.
pub trait Routes {
    /// The network that the routes run over.
    ghost over: { Self → Network };

    /// The hops from one station to another; none where there is no route.
    ghost route: { Self → ℕ → ℕ → Option (List Hop) };

    /// The network that the routes run over.
    fn network(&self) -> &Network
        ensures { result.now ≡ over self.now };

    /// How many hops lead from `from` to `to`, if there is a route.
    fn route_length(&self, from: usize, to: usize) -> Option<usize>
        ensures { result ≡ option_map length (route self.now from to) };

    /// The hop at place `i` of the route from `from` to `to`.
    fn hop(&self, from: usize, to: usize, i: usize) -> Option<Hop>
        ensures { result ≡ hop_at (route self.now from to) i };

    /// The routes keep the laws of routes.
    ghost keeps: { (r : Self) → RouteLaws (net_of (over r)) (route r) };
}
