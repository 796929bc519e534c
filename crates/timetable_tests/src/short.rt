//! A timetable that ends early, over another.
ghost use Rattle.std.specs.Prelude.{◌≡◌};
ghost use Rattle.timetable_tests.specs.Shorter.{until, short_horizon};

use model::{Booking, Refusal, Tick};
use timetable::{Askable, Writable};

/// The timetable below, but every booking ends by a tick.
#[derive(Drop)]
pub struct Short<W> {
    below: W,
    limit: Tick,
}

impl<W: Writable> Short<W> {
    /// A timetable whose bookings end by `limit`.
    pub fn over(below: W, limit: Tick) -> Short<W>
        ensures { ⟦<Short<W> as Askable>⟧.meaning result ≡ until limit (W.meaning below) }
    {
        Short { below, limit }
    }
}

impl<W: Writable> Askable for Short<W> {
    ghost meaning = { λ short. until short.limit (W.meaning short.below) };

    fn horizon(&self) -> Tick {
        self.limit.min(self.below.horizon())
    }

    fn most(&self) -> usize {
        self.below.most()
    }

    fn count(&self) -> usize {
        self.below.count()
    }

    fn booking(&self, place: usize) -> Option<Booking> {
        self.below.booking(place)
    }

    #[tactic(auto, using(crate::proofs::Shortening::none_until, crate::proofs::Shortening::some_until, crate::proofs::Shortening::late_until))]
    fn earliest(&self, resource: usize, from: Tick, ticks: Tick) -> Option<Tick> {
        let start = self.below.earliest(resource, from, ticks)?;
        let end = u64::from(start) + u64::from(ticks);
        (end <= u64::from(self.limit)).then_some(start)
    }

    ghost horizon_limit = { λ short. short_horizon short.limit (W.meaning short.below) (W.horizon_limit short.below) };

    ghost count_limit = { λ short. W.count_limit short.below };
}

impl<W: Writable> Writable for Short<W> {
    #[tactic(auto, using(crate::proofs::Shortening::late_answer, crate::proofs::Shortening::late_table, crate::proofs::Shortening::soon_answer, crate::proofs::Shortening::soon_table))]
    fn book(&mut self, booking: Booking) -> Result<(), Refusal> {
        if self.below.count() == self.below.most() {
            return Err(Refusal::NoRoom(1));
        }
        if booking.end() > u64::from(self.limit) {
            return Err(Refusal::NoStart(booking.resource));
        }
        self.below.book(booking)
    }

    fn take_back(&mut self) -> Result<Booking, Refusal> {
        self.below.take_back()
    }
}
