//! Booking a transfer, hop by hop.
ghost use Rattle.std.specs.Prelude.{◌≡◌, ◌+◌, ◌-◌, ◌<◌, ◌≤◌, false, max, drop, length};
ghost use Rattle.model.specs.Data.{net_of, transfer_length};
ghost use Rattle.model.specs.Plans.{starts_of};
ghost use Rattle.routes.specs.Hops.{hops_of};
ghost use Rattle.timetable.specs.Changes.{is_full};
ghost use Rattle.planner.specs.Booked.{Extends, seek_leg, with_leg, carried, after_starts};
ghost use Rattle.planner.specs.Transfers.{carry, carry_on};

use crate::questions::book_earliest;
use model::network::MOST_STATIONS;
use model::plan::measures::transfer_length;
use model::{Booking, Network, Refusal, Tick, TransferRow};
use routes::{Hop, Routes};
use timetable::Writable;

/// A file that is to be carried from one station to another, from a tick on.
#[derive(Clone, Copy)]
pub(crate) struct Transfer {
    pub(crate) volume: u32,
    pub(crate) departure: u64,
    pub(crate) from: usize,
    pub(crate) to: usize,
}

/// A booked transfer: its row, and when the file is there.
#[derive(Clone, Copy)]
pub(crate) struct BookedTransfer {
    pub(crate) row: TransferRow,
    pub(crate) arrival: u64,
}

/// Books one hop: not from before `first`, and so that it does not end before `previous`.
fn book_hop<T: Writable>(
    network: &Network,
    table: &mut T,
    volume: u32,
    hop: Hop,
    first: u64,
    previous: u64,
) -> Result<Booking, Refusal>
    requires room { is_full (T.meaning table.old) ≡ false }
    requires link { hop.link < 32 }
    ensures answer { result ≡ seek_leg (net_of network.now) volume hop (max first (previous - transfer_length (net_of network.now) volume hop.link)) (T.meaning table.old) }
    ensures after { T.meaning table.new ≡ with_leg (T.meaning table.old) result }
{
    let resource = MOST_STATIONS + hop.link;
    let length = transfer_length(network, volume, hop.link);
    let from = first.max(previous.saturating_sub(u64::from(length)));
    let start = book_earliest(table, resource, from, length)?;
    Ok(Booking {
        resource,
        start,
        length,
    })
}

/// Books the hops after those that have a start, none before `first`.
fn carry_on<R: Routes, T: Writable>(
    routes: &R,
    table: &mut T,
    transfer: Transfer,
    first: Tick,
    mut booked: BookedTransfer,
) -> Result<BookedTransfer, Refusal>
    requires within { length (starts_of booked.row) ≤ length (hops_of (R.route routes.now transfer.from transfer.to)) }
    requires room { length (T.meaning table.old).bookings + length (hops_of (R.route routes.now transfer.from transfer.to)) ≤ (T.meaning table.old).most + length (starts_of booked.row) }
    ensures answer { carried result (T.meaning table.new) ≡ after_starts (starts_of booked.row) (carry_on (net_of (R.over routes.now)) transfer.volume first booked.arrival (drop (length (starts_of booked.row)) (hops_of (R.route routes.now transfer.from transfer.to))) (T.meaning table.old)) }
    ensures kept { Extends (T.meaning table.new) (T.meaning table.old) }
    ensures few { length (T.meaning table.new).bookings + length (starts_of booked.row) ≤ length (T.meaning table.old).bookings + length (hops_of (R.route routes.now transfer.from transfer.to)) }
{
    let network = routes.network();
    while let Some(hop) = routes.hop(transfer.from, transfer.to, booked.row.count()) {
        let leg = book_hop(
            network,
            table,
            transfer.volume,
            hop,
            u64::from(first),
            booked.arrival,
        )?;
        booked.row.push(leg.start).unwrap();
        booked.arrival = leg.end();
    }
    Ok(booked)
}

/// Books a transfer on each hop of its route. Where a hop has no start, the bookings before it stand.
pub(crate) fn carry<R: Routes, T: Writable>(
    routes: &R,
    table: &mut T,
    transfer: Transfer,
) -> Result<BookedTransfer, Refusal>
    requires { length (T.meaning table.old).bookings + length (hops_of (R.route routes.now transfer.from transfer.to)) ≤ (T.meaning table.old).most }
    ensures answer { carried result (T.meaning table.new) ≡ carry (net_of (R.over routes.now)) transfer.volume transfer.departure (hops_of (R.route routes.now transfer.from transfer.to)) (T.meaning table.old) }
    ensures kept { Extends (T.meaning table.new) (T.meaning table.old) }
    ensures few { length (T.meaning table.new).bookings ≤ length (T.meaning table.old).bookings + length (hops_of (R.route routes.now transfer.from transfer.to)) }
{
    let mut row = TransferRow::new();
    let Some(hop) = routes.hop(transfer.from, transfer.to, 0) else {
        return Ok(BookedTransfer {
            row,
            arrival: transfer.departure,
        });
    };
    let leg = book_hop(
        routes.network(),
        table,
        transfer.volume,
        hop,
        transfer.departure,
        0,
    )?;
    row.push(leg.start).unwrap();
    let booked = BookedTransfer {
        row,
        arrival: leg.end(),
    };
    carry_on(routes, table, transfer, leg.start, booked)
}
