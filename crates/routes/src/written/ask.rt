//! What written routes answer.
ghost use Rattle.std.specs.Prelude.{◌≡◌};
ghost use Rattle.std.specs.Option.{option_map};
ghost use Rattle.model.specs.Data.{net_of};
ghost use Rattle.routes.specs.Tables.{rows_of, written_route};
ghost use Rattle.routes.specs.Shown.Kept.{written_laws};

use super::{WrittenRoutes, row_at};
use crate::hop::Hop;
use crate::interface::Routes;
use model::Network;

impl WrittenRoutes {
    /// The route from `from` to `to`, looked up in the table.
    fn find(&self, from: usize, to: usize) -> Option<&[Hop]>
        ensures { option_map (λ x. x.now) result ≡ written_route (net_of self.now.network) (rows_of self.now.rows.items) from to }
    {
        let stations = self.network.station_count();
        if from >= stations || to >= stations {
            return None;
        }
        row_at(&self.network, &self.rows, from, to)?
    }
}

impl Routes for WrittenRoutes {
    ghost over = { λ w. w.network };

    ghost route = { λ w. written_route (net_of w.network) (rows_of w.rows.items) };

    ghost keeps = { λ r. written_laws (net_of r.network) (rows_of r.rows.items) r.checked };

    fn network(&self) -> &Network {
        &self.network
    }

    fn route_length(&self, from: usize, to: usize) -> Option<usize> {
        self.find(from, to).map(|hops| hops.len())
    }

    fn hop(&self, from: usize, to: usize, i: usize) -> Option<Hop> {
        self.find(from, to)?.get(i).copied()
    }
}
