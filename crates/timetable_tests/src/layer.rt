//! A timetable over another.
ghost use Rattle.std.specs.Prelude.{◌≡◌};

use model::{Booking, Refusal, Tick};
use timetable::{Askable, Writable};

/// Passes every call on to the timetable below.
#[derive(Drop)]
pub struct Layer<W> {
    below: W,
}

impl<W: Writable> Layer<W> {
    /// A layer over a timetable, that says what that one says.
    pub fn over(below: W) -> Layer<W>
        ensures { ⟦<Layer<W> as Askable>⟧.meaning result ≡ W.meaning below }
    {
        Layer { below }
    }
}

impl<W: Writable> Askable for Layer<W> {
    ghost meaning = { λ layer. W.meaning layer.below };

    fn horizon(&self) -> Tick {
        self.below.horizon()
    }

    fn most(&self) -> usize {
        self.below.most()
    }

    fn count(&self) -> usize {
        self.below.count()
    }

    fn booking(&self, place: usize) -> Option<Booking> {
        self.below.booking(place)
    }

    fn earliest(&self, resource: usize, from: Tick, ticks: Tick) -> Option<Tick> {
        self.below.earliest(resource, from, ticks)
    }

    ghost horizon_limit = { λ layer. W.horizon_limit layer.below };

    ghost count_limit = { λ layer. W.count_limit layer.below };
}

impl<W: Writable> Writable for Layer<W> {
    fn book(&mut self, booking: Booking) -> Result<(), Refusal> {
        self.below.book(booking)
    }

    fn take_back(&mut self) -> Result<Booking, Refusal> {
        self.below.take_back()
    }
}
