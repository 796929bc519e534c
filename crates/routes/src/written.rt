//! Routes that are written out in a table.
ghost use Rattle.std.specs.Prelude.{◌≡◌, ◌<◌, false, is_some};
ghost use Rattle.std.specs.Option.{option_map};
ghost use Rattle.model.specs.Data.{net_of};
ghost use Rattle.routes.specs.Tables.{rows_of, row_at, written_refusal};

use crate::hop::Hop;
use model::Network;

pub mod ask;
pub mod make;

/// The routes of `network` as `rows` have them: a row for each ordered pair of stations, by rising origin, then goal.
#[derive(Drop)]
pub struct WrittenRoutes {
    network: Network,
    rows: Vec<Option<Vec<Hop>>>,
    ghost checked: { is_some (written_refusal (net_of network) (rows_of rows.items)) ≡ false },
}

/// The row of a pair of stations, if the table has one.
fn row_at<'a>(
    network: &Network,
    rows: &'a [Option<Vec<Hop>>],
    from: usize,
    to: usize,
) -> Option<Option<&'a [Hop]>>
    requires { (from < 16) × (to < 16) }
    ensures { option_map (option_map (λ hops. hops.now)) result ≡ row_at (net_of network.now) (rows_of rows.now) from to }
{
    rows.get(network.station_count() * from + to)
        .map(|row| row.as_deref())
}
