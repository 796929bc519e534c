//! Writing a bit sheet.
ghost use Rattle.std.specs.Prelude.{◌≡◌, ◌<◌, true, vec_len, vec_capacity};
ghost use Rattle.timetable.specs.BitSheets.{sheet_table};
ghost use Rattle.timetable.specs.Changes.{is_free_for, with_booking};

use crate::ask::is_free;
use crate::bit_sheet::{BitSheet, first_bit};
use crate::bits::{clear_bits, set_bits};
use crate::write::Writable;
use model::{Booking, Refusal, check};

impl BitSheet {
    /// Adds a booking as the newest, in the memory that is there.
    fn keep(&mut self, booking: Booking)
        requires has_room { vec_len self.old.bookings < vec_capacity self.old.bookings }
        requires is_free { is_free_for (sheet_table self.old) booking ≡ true }
        ensures { sheet_table self.new ≡ with_booking (sheet_table self.old) booking }
    {
        let from = first_bit(self.words_per_resource, booking.resource) + booking.start as usize;
        set_bits(&mut self.words, from, from + booking.length as usize);
        self.bookings.push_reserved(booking);
    }
}

impl Writable for BitSheet {
    fn book(&mut self, booking: Booking) -> Result<(), Refusal> {
        let has_room = self.bookings.len() < self.bookings.capacity();
        check(has_room, Refusal::NoRoom(1))?;
        check(is_free(self, booking), Refusal::NoStart(booking.resource))?;
        self.keep(booking);
        Ok(())
    }

    fn take_back(&mut self) -> Result<Booking, Refusal> {
        let newest = self.bookings.pop();
        let booking = newest.ok_or(Refusal::NothingToTakeBack)?;
        let from = first_bit(self.words_per_resource, booking.resource) + booking.start as usize;
        clear_bits(&mut self.words, from, from + booking.length as usize);
        Ok(booking)
    }
}
