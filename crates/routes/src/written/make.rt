//! The maker of written routes.
ghost use Rattle.std.specs.Prelude.{◌≡◌, ◌<◌, true, ◌↔◌, is_ok, IfOk, IfErr, vec_items};
ghost use Rattle.std.specs.Option.{option_map};
ghost use Rattle.model.specs.Data.{net_of};
ghost use Rattle.model.specs.Refusals.{refusal_of};
ghost use Rattle.routes.specs.Tables.{rows_of, keeps_law, row_refusal, origin_refusal, written_refusal};
ghost use Rattle.routes.specs.Lawful.{LawfulTable, FirstBroken};

use super::{WrittenRoutes, row_at};
use crate::hop::Hop;
use crate::walk::is_route;
use model::network::MOST_STATIONS;
use model::{Network, Refusal, check};

/// Whether `row` keeps the law of the pair: empty from a station to itself, else none or a route.
fn keeps_law(network: &Network, from: usize, to: usize, row: Option<&[Hop]>) -> bool
    ensures { result ≡ keeps_law (net_of network.now) from to (option_map (λ hops. hops.now) row.entry) }
{
    if from == to {
        row.is_some_and(|hops| hops.is_empty())
    } else {
        row.is_none_or(|hops| is_route(network, from, to, hops))
    }
}

/// Refuses the row of a pair of stations if it is missing or breaks a law.
fn check_row(
    network: &Network,
    rows: &[Option<Vec<Hop>>],
    from: usize,
    to: usize,
) -> Result<(), Refusal>
    requires { (from < 16) × (to < 16) }
    ensures { refusal_of result ≡ row_refusal (net_of network.now) (rows_of rows.now) from to }
{
    let row = row_at(network, rows, from, to);
    check(
        row.is_some_and(|row| keeps_law(network, from, to, row)),
        Refusal::BadRoute(MOST_STATIONS * from + to),
    )
}

/// Refuses the first row from a station that is missing or breaks a law.
fn check_origin(network: &Network, rows: &[Option<Vec<Hop>>], from: usize) -> Result<(), Refusal>
    requires { from < 16 }
    ensures { refusal_of result ≡ origin_refusal (net_of network.now) (rows_of rows.now) from }
{
    // A `for` with `?`, since each row may be refused: what `try_for_each` answers was not proved.
    for to in 0..network.station_count() {
        check_row(network, rows, from, to)?;
    }
    Ok(())
}

/// Refuses the first row that is missing or breaks a law.
fn check_rows(network: &Network, rows: &[Option<Vec<Hop>>]) -> Result<(), Refusal>
    ensures { refusal_of result ≡ written_refusal (net_of network.now) (rows_of rows.now) }
{
    // A `for` with `?`, for the same reason.
    for from in 0..network.station_count() {
        check_origin(network, rows, from)?;
    }
    Ok(())
}

impl WrittenRoutes {
    /// The routes of this table, or the first pair of stations whose row is missing or breaks a law.
    pub fn new(network: Network, rows: Vec<Option<Vec<Hop>>>) -> Result<WrittenRoutes, Refusal>
        ensures answer { refusal_of result ≡ written_refusal (net_of network) (rows_of rows.items) }
        ensures kept { IfOk result (λ w. (w.network ≡ network) × (w.rows ≡ rows)) }
        ensures lawful { is_ok result ≡ true ↔ LawfulTable (net_of network) (rows_of rows.items) }
        ensures broken { IfErr result (FirstBroken (net_of network) (rows_of rows.items)) }
    {
        check_rows(&network, &rows)?;
        Ok(WrittenRoutes { network, rows })
    }
}
