//! Writing a timetable.
ghost use Rattle.std.specs.Prelude.{◌≡◌};
ghost use Rattle.timetable.specs.Changes.{booked_answer, booked, taken_back_answer, taken_back};

use crate::ask::Askable;
use model::{Booking, Refusal};

/// A timetable that takes bookings, and gives the newest back.
pub trait Writable: Askable {
    /// Adds a booking as the newest, unless the table is full or the resource is not free there.
    fn book(&mut self, booking: Booking) -> Result<(), Refusal>
        ensures answer { result ≡ booked_answer (Self.meaning self.old) booking }
        ensures after { Self.meaning self.new ≡ booked (Self.meaning self.old) booking };

    /// Removes the newest booking and gives it, unless there is none.
    fn take_back(&mut self) -> Result<Booking, Refusal>
        ensures answer { result ≡ taken_back_answer (Self.meaning self.old) }
        ensures after { Self.meaning self.new ≡ taken_back (Self.meaning self.old) };
}
