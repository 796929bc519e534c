//! Asking a timetable from any tick, and booking what it answers.
ghost use Rattle.std.specs.Prelude.{◌≡◌, false};
ghost use Rattle.timetable.specs.Changes.{is_full};
ghost use Rattle.timetable.specs.Earliest.{earliest};
ghost use Rattle.planner.specs.Booked.{with_answer};
ghost use Rattle.planner.specs.Transfers.{ask};

use model::{Booking, Refusal, Tick};
use timetable::{Askable, Writable};

/// The earliest start at or after `from` where the resource is free. A finish can be later than every tick;
/// from there on no resource is free, since every horizon is a tick.
#[tactic(auto, using(crate::proofs::Asking::none_from_beyond))]
fn earliest_from<T: Askable>(table: &T, resource: usize, from: u64, ticks: Tick) -> Option<Tick>
    ensures { result ≡ earliest (T.meaning table.now) resource from ticks }
{
    let from = Tick::try_from(from).ok()?;
    table.earliest(resource, from, ticks)
}

/// Books the resource at its earliest start from a tick on, and gives that start.
pub(crate) fn book_earliest<T: Writable>(
    table: &mut T,
    resource: usize,
    from: u64,
    ticks: Tick,
) -> Result<Tick, Refusal>
    requires { is_full (T.meaning table.old) ≡ false }
    ensures answer { result ≡ ask (T.meaning table.old) resource from ticks }
    ensures after { T.meaning table.new ≡ with_answer (T.meaning table.old) resource ticks result }
{
    let Some(start) = earliest_from(table, resource, from, ticks) else {
        return Err(Refusal::NoStart(resource));
    };
    table.book(Booking {
        resource,
        start,
        length: ticks,
    })?;
    Ok(start)
}
