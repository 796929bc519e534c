//! A plan: a row for each task and each transfer, and the steps by which it was drawn.
ghost use Rattle.std.specs.Prelude.{◌≡◌, ◌≤◌, true, length};
ghost use Rattle.model.specs.Rows.{stations_fit};

use crate::tick::Tick;

pub mod edits;
pub mod error;
pub mod measures;
pub mod transfer;
pub mod view;

/// How many tasks a plan has rows for.
pub const TASK_ROWS: usize = 128;

/// How many transfers a plan has rows for.
pub const TRANSFER_ROWS: usize = 224;

/// How many starts a transfer row has room for.
pub const MOST_HOPS: usize = 15;

/// Where and when a task is placed.
#[derive(Clone, Copy, Debug, PartialEq, Eq)]
pub struct Placement {
    pub station: usize,
    pub start: Tick,
}

/// The starts of one transfer, one for each hop of its route: the first `count` of `starts`.
/// An array, since a row is `Copy` and a plan never allocates. In definitions an array is a list: `room` says how long.
#[derive(Clone, Copy)]
pub struct TransferRow {
    starts: [Tick; MOST_HOPS],
    count: usize,
    ghost few: { count ≤ 15 },
    ghost room: { length starts ≡ 15 },
}

/// Which machine does each task and when, and when each transfer is on each link of its route.
/// The steps are the tasks in the order in which they were placed: the first `step_count` of `steps`.
/// They stand in arrays, since a plan never allocates. In definitions an array is a list: ghost fields say how long.
#[derive(Drop)]
pub struct Plan {
    tasks: [Option<Placement>; TASK_ROWS],
    transfers: [TransferRow; TRANSFER_ROWS],
    steps: [usize; TASK_ROWS],
    step_count: usize,
    ghost task_rows: { length tasks ≡ 128 },
    ghost transfer_rows: { length transfers ≡ 224 },
    ghost step_room: { length steps ≡ 128 },
    ghost few_steps: { step_count ≤ 128 },
    ghost stations: { stations_fit tasks ≡ true },
}
