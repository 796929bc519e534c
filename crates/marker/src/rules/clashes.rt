//! Rules H and I: no two tasks share a tick of a machine, and no two transfers one of a link.
ghost use Rattle.std.specs.Prelude.{◌≡◌, ℕ, false, IsTrue};
ghost use Rattle.model.specs.Bookings.{collide};
ghost use Rattle.routes.specs.Legs.{legs};
ghost use Rattle.marker.specs.Markings.{on};
ghost use Rattle.marker.specs.Verdicts.{any, machines_test, links_test};

use crate::marking::Marking;
use model::Booking;
use routes::Routes;

impl<R: Routes> Marking<'_, '_, R> {
    /// Whether two tasks share a tick of a machine.
    pub(crate) fn machines_test(&self, t: usize, u: usize) -> bool
        ensures { result ≡ on self.now machines_test t u }
    {
        if t < u
            && let Some(a) = self.booking(t)
            && let Some(b) = self.booking(u)
        {
            a.collides(&b)
        } else {
            false
        }
    }

    /// Whether a booking collides with a leg of edge `j`.
    fn meets(&self, a: &Booking, j: usize) -> bool
        ensures { result ≡ any (on self.now legs j) (collide a.now) }
    {
        self.any_leg(j, |b| a.collides(b))
    }

    /// Whether two transfers share a tick of a link.
    pub(crate) fn links_test(&self, i: usize, j: usize) -> bool
        ensures { result ≡ on self.now links_test i j }
    {
        i < j && self.any_leg(i, |a| self.meets(a, j))
    }

    /// Whether edge `i` overlaps no later edge on a link. Then it shares no tick with one.
    pub(crate) fn overlaps_none_later(&self, i: usize) -> bool
        ensures { IsTrue result → (j : ℕ) → on self.now links_test i j ≡ false }
    {
        !self.any_leg(i, |a| self.spans.is_overlapped(a, i))
    }
}
