//! Rules E, F and G: a transfer goes after the task it comes from, link after link, and before the task it goes to.
ghost use Rattle.std.specs.Prelude.{◌≡◌, ◌&&◌, ◌==◌, nat_lt};
ghost use Rattle.model.specs.Bookings.{end};
ghost use Rattle.model.specs.Plans.{task_row, finish};
ghost use Rattle.routes.specs.Legs.{legs, last};
ghost use Rattle.marker.specs.Markings.{on};
ghost use Rattle.marker.specs.Verdicts.{some_is, hop_test, departure_test, causality_test, arrival_test};

use crate::marking::Marking;
use model::{Placement, Tick};
use routes::Routes;

impl<R: Routes> Marking<'_, '_, R> {
    /// Whether the transfer starts before its origin is done.
    pub(crate) fn departure_test(&self, i: usize) -> bool
        ensures { result ≡ on self.now departure_test i }
    {
        if let Some(e) = self.marked.job.edge(i)
            && let Some(origin) = self.booking(e.from)
            && let Some(b) = self.leg(i, 0)
        {
            u64::from(b.start) < origin.end()
        } else {
            false
        }
    }

    /// Whether the edge's leg `k` starts before its first, or is done before its leg `before`.
    fn hop_test(&self, i: usize, before: usize, k: usize) -> bool
        ensures { result ≡ on self.now hop_test i before k }
    {
        let Some(b) = self.leg(i, k) else {
            return false;
        };
        self.leg(i, 0).is_some_and(|a| b.start < a.start)
            || self.leg(i, before).is_some_and(|a| b.end() < a.end())
    }

    /// Whether the transfer is too early on its hop `k`.
    pub(crate) fn causality_test(&self, i: usize, k: usize) -> bool
        ensures { result ≡ on self.now causality_test i k }
    {
        k != 0 && self.hop_test(i, k - 1, k)
    }

    /// Whether `start` is before the edge's last leg is done.
    fn before_transfer(&self, i: usize, start: Tick) -> bool
        ensures { result ≡ some_is (last (on self.now legs i)) (λ b. nat_lt start (end b)) }
    {
        self.legs(i)
            .iter()
            .flatten()
            .last()
            .is_some_and(|b| u64::from(start) < b.end())
    }

    /// Whether `q` starts before a task on its own machine is done.
    fn before_task(&self, from: usize, q: Placement) -> bool
        ensures { result ≡ on self.now (λ J N ρ P. some_is (task_row P from) (λ p. (p.station == q.station) && nat_lt q.start (finish J N from p))) }
    {
        self.booking(from).is_some_and(|origin| {
            origin.resource == q.station && u64::from(q.start) < origin.end()
        })
    }

    /// Whether the edge's goal starts too early.
    pub(crate) fn arrival_test(&self, i: usize) -> bool
        ensures { result ≡ on self.now arrival_test i }
    {
        if let Some(e) = self.marked.job.edge(i)
            && let Some(q) = self.marked.plan.task(e.to)
        {
            self.before_transfer(i, q.start) || self.before_task(e.from, q)
        } else {
            false
        }
    }
}
