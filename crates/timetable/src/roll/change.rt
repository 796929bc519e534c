//! Writing a roll.
ghost use Rattle.std.specs.Prelude.{◌≡◌, ◌<◌, true, vec_len, vec_capacity};
ghost use Rattle.timetable.specs.Changes.{is_free_for, with_booking};
ghost use Rattle.timetable.specs.Rolls.{roll_table};

use crate::ask::is_free;
use crate::roll::Roll;
use crate::write::Writable;
use model::{Booking, Refusal, check};

impl Roll {
    /// Adds a booking as the newest, in the memory that is there.
    fn keep(&mut self, booking: Booking)
        requires room { vec_len self.old.bookings < vec_capacity self.old.bookings }
        requires free { is_free_for (roll_table self.old) booking ≡ true }
        ensures { roll_table self.new ≡ with_booking (roll_table self.old) booking }
    {
        self.bookings.push_reserved(booking);
        self.by_start.insert(booking);
    }
}

impl Writable for Roll {
    fn book(&mut self, booking: Booking) -> Result<(), Refusal> {
        let has_room = self.bookings.len() < self.bookings.capacity();
        check(has_room, Refusal::NoRoom(1))?;
        check(is_free(self, booking), Refusal::NoStart(booking.resource))?;
        self.keep(booking);
        Ok(())
    }

    fn take_back(&mut self) -> Result<Booking, Refusal> {
        let newest = self.bookings.pop();
        let booking = newest.ok_or(Refusal::NothingToTakeBack)?;
        self.by_start.remove(booking);
        Ok(booking)
    }
}
