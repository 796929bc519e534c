//! A booking: a span of ticks on one resource.
ghost use Rattle.std.specs.Prelude.{◌≡◌, ◌^◌, ◌<◌};
ghost use Rattle.model.specs.Bookings.{end, collide};

use crate::tick::Tick;

/// `resource` is taken for `length` ticks from `start`.
/// Resources 0 to 15 are the stations; resource 16 + l is link l.
#[derive(Clone, Copy, Debug, PartialEq, Eq)]
pub struct Booking {
    pub resource: usize,
    pub start: Tick,
    pub length: Tick,
}

impl Booking {
    /// The first tick after the booking.
    pub fn end(&self) -> u64
        ensures value { result ≡ end self.now }
        ensures fits { result < 2 ^ 33 }
    {
        u64::from(self.start) + u64::from(self.length)
    }

    /// Whether two bookings are of one resource and have a tick in common.
    pub fn collides(&self, other: &Booking) -> bool
        ensures { result ≡ collide self.now other.now }
    {
        self.resource == other.resource
            && u64::from(self.start.max(other.start)) < self.end().min(other.end())
    }
}
