//! The table of written routes.
ghost use Rattle.std.specs.Prelude.{◌≡◌, ℕ, ◌+◌, ◌*◌, ◌<◌, ◌≤◌, ◌&&◌, ◌++◌, min, nat_lt, if◌then◌else◌, map, None, slice_set, vec_items, IfOk, OnOk};
ghost use Rattle.std.specs.Option.{option_map};
ghost use Rattle.std.specs.List.{range_with_len};
ghost use Rattle.routes.specs.Tables.{rows_of};
ghost use Rattle.session.specs.Pairs.{pairs_of};
ghost use Rattle.session.specs.RouteRows.{SameFrom, row_between, table_rows};

use crate::setting::WrittenHops;
use model::network::MOST_STATIONS;
use routes::Hop;
use std::alloc::{AllocError, Global};

/// The row of one pair, its hops moved out of what is written; none from 16 on, which is no station.
#[tactic(auto, using(crate::proofs::Pairs::pair_taken))]
fn row_between(alloc: Global, written: &mut WrittenHops, from: usize, to: usize) -> Option<Vec<Hop>>
    ensures row { option_map vec_items result ≡ (if nat_lt from 16 && nat_lt to 16 then row_between (pairs_of written.old) from to else None) }
    ensures rest { pairs_of written.new ≡ (if nat_lt from 16 && nat_lt to 16 then slice_set (pairs_of written.old) (16 * from + to) None else pairs_of written.old) }
{
    if from >= MOST_STATIONS || to >= MOST_STATIONS {
        return None;
    }
    let empty_route = (from == to).then_some(Vec::new(alloc));
    written.remove(&(from, to)).or(empty_route)
}

/// Adds the row from one station to each of `count`.
fn push_rows(
    alloc: Global,
    written: &mut WrittenHops,
    count: usize,
    from: usize,
    rows: &mut Vec<Option<Vec<Hop>>>,
) -> Result<(), AllocError>
    requires { (from < 16) × (count ≤ 16) }
    ensures rows { OnOk result (rows_of rows.new.items ≡ rows_of rows.old.items ++ map (row_between (pairs_of written.old) from) (range_with_len 0 count)) }
    ensures rest { SameFrom (16 * from + count) (pairs_of written.old) (pairs_of written.new) }
{
    // A loop: of a closure that moves hops out of the map, nothing would be known.
    for to in 0..count {
        rows.push(row_between(alloc, written, from, to))?;
    }
    Ok(())
}

/// The rows of written routes over `count` stations, of which there are at most 16, by rising origin, then goal.
pub fn table_of(
    alloc: Global,
    count: usize,
    mut written: WrittenHops,
) -> Result<Vec<Option<Vec<Hop>>>, AllocError>
    ensures { IfOk result (λ rows. rows_of rows.items ≡ table_rows (min count 16) (pairs_of written)) }
{
    let count = count.min(MOST_STATIONS);
    let mut rows = Vec::new(alloc);
    for from in 0..count {
        push_rows(alloc, &mut written, count, from, &mut rows)?;
    }
    Ok(rows)
}
