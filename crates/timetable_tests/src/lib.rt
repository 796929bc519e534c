//! Code over any timetable.
#![tactic(auto)]

ghost use Rattle.std.specs.Prelude.{◌≡◌, ◌+◌, ◌*◌, length, IfOk};
ghost use Rattle.timetable.specs.Laws.{IsEarliest};
ghost use Rattle.timetable.specs.Sound.{Sound};
ghost use Rattle.timetable_tests.specs.Uses.{earliest_booked_answer, earliest_booked, tried_answer};

use model::{Booking, Refusal, Tick};
use timetable::{Askable, Writable};

pub mod layer;
#[cfg(test)]
mod sheets;
pub mod short;
#[cfg(test)]
mod worked;

/// Books the resource from its earliest start at or after `from`, and answers that start.
pub fn book_earliest<T: Writable>(
    table: &mut T,
    resource: usize,
    from: Tick,
    ticks: Tick,
) -> Result<Tick, Refusal>
    ensures answer { result ≡ earliest_booked_answer (T.meaning table.old) resource from ticks }
    ensures after { T.meaning table.new ≡ earliest_booked (T.meaning table.old) resource from ticks }
    ensures is_earliest { IfOk result (λ start. IsEarliest (T.meaning table.old) resource from ticks start) }
    ensures keeps_sound { Sound (T.meaning table.old) → Sound (T.meaning table.new) }
{
    let earliest = table.earliest(resource, from, ticks);
    let start = earliest.ok_or(Refusal::NoStart(resource))?;
    table.book(Booking {
        resource,
        start,
        length: ticks,
    })?;
    Ok(start)
}

/// Books the earliest and takes it back: the table is then what it was.
pub fn try_earliest<T: Writable>(
    table: &mut T,
    resource: usize,
    from: Tick,
    ticks: Tick,
) -> Result<Booking, Refusal>
    ensures answer { result ≡ tried_answer (T.meaning table.old) resource from ticks }
    ensures unchanged { T.meaning table.new ≡ T.meaning table.old }
{
    book_earliest(table, resource, from, ticks)?;
    table.take_back()
}

/// How many more bookings there is room for.
pub fn room_left<T: Askable>(table: &T) -> usize
    ensures { result + length (T.meaning table.now).bookings ≡ (T.meaning table.now).most }
{
    table.most() - table.count()
}

/// Twice the horizon, which fits.
pub fn twice_horizon<T: Askable>(table: &T) -> Tick
    ensures { result ≡ 2 * (T.meaning table.now).horizon }
{
    2 * table.horizon()
}
