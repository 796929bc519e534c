//! Asking a timetable.
ghost use Rattle.std.specs.Prelude.{◌≡◌, ◌≤◌, ◌↔◌, length, IsTrue};
ghost use Rattle.std.specs.List.{slice_get};
ghost use Rattle.timetable.specs.Changes.{is_free_for};
ghost use Rattle.timetable.specs.Earliest.{earliest};
ghost use Rattle.timetable.specs.Laws.{IsFree};
ghost use Rattle.timetable.specs.Tables.{Table};

use model::{Booking, Tick};

/// A timetable that answers questions. Any numbers may be asked, and no answer changes it.
pub trait Askable {
    /// What the timetable says, whatever it is made of.
    ghost meaning: { Self → Table };

    /// The tick by which every booking ends.
    fn horizon(&self) -> Tick
        ensures { result ≡ (meaning self.now).horizon };

    /// How many bookings it may hold.
    fn most(&self) -> usize
        ensures { result ≡ (meaning self.now).most };

    /// How many bookings it holds.
    fn count(&self) -> usize
        ensures { result ≡ length (meaning self.now).bookings };

    /// The booking at a place, in the order they were made, from 0.
    fn booking(&self, place: usize) -> Option<Booking>
        ensures { result ≡ slice_get (meaning self.now).bookings place };

    /// The earliest start at or after `from` where the resource is free for `ticks` ticks.
    fn earliest(&self, resource: usize, from: Tick, ticks: Tick) -> Option<Tick>
        ensures { result ≡ earliest (meaning self.now) resource from ticks };

    /// What every timetable keeps to.
    ghost horizon_limit: { (t : Self) → (meaning t).horizon ≤ 2000000000 };

    ghost count_limit: { (t : Self) → length (meaning t).bookings ≤ (meaning t).most };
}

/// Whether the resource of a booking is free for it.
pub fn is_free<T: Askable>(table: &T, booking: Booking) -> bool
    ensures answer { result ≡ is_free_for (T.meaning table.now) booking }
    ensures in_words { IsTrue result ↔ IsFree (T.meaning table.now) booking.resource booking.start booking.length }
{
    table.earliest(booking.resource, booking.start, booking.length) == Some(booking.start)
}
