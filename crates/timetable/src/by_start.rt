//! Bookings in the order of their resources and, on one resource, of their starts.
ghost use Rattle.std.specs.Prelude.{◌≡◌, ℕ, ◌+◌, ◌<◌, ◌≤◌, ◌^◌, Bool, true, false, [], All, AllPairs, count_by, Contains, if◌then◌else◌, vec_len, vec_capacity, IfOk, IsOk, IfSome, IsNone};
ghost use Rattle.std.specs.List.{list_any};
ghost use Rattle.std.specs.List.Sorted.{IsPartitionPoint};
ghost use Rattle.model.specs.Bookings.{collide};
ghost use Rattle.model.specs.declared.booking.Booking.{Booking};
ghost use Rattle.timetable.specs.Order.{precedes};
ghost use Rattle.timetable.specs.Tables.{span};

use model::{Booking, Tick};
use std::alloc::{AllocError, Global};

/// Bookings by rising resource and start, with memory for some more. No two of them collide.
#[derive(Drop)]
pub(crate) struct ByStart {
    list: Vec<Booking>,
    ghost in_order: { AllPairs (λ a b. precedes a b ≡ true) list.items },
    ghost some_ticks: { All (λ (b : Booking). 1 ≤ b.length) list.items },
}

impl ByStart {
    /// No bookings, with memory for `most`.
    pub(crate) fn new(alloc: Global, most: usize) -> Result<ByStart, AllocError>
        ensures empty { IfOk result (λ made. made.list.items ≡ []) }
        ensures room { IfOk result (λ made. vec_capacity made.list ≡ most) }
        ensures none_needs_no_memory { most ≡ 0 → IsOk result }
    {
        Ok(ByStart {
            list: Vec::with_capacity(alloc, most)?,
        })
    }

    /// How many of the bookings precede this one.
    fn place(&self, booking: &Booking) -> usize
        ensures within { result ≤ vec_len self.now.list }
        ensures splits { IsPartitionPoint (λ b. precedes b booking.now ≡ true) (λ b. precedes b booking.now ≡ false) self.now.list.items result }
    {
        self.list.partition_point(|b| precedes(b, booking))
    }

    /// Puts a booking at its place.
    pub(crate) fn insert(&mut self, booking: Booking)
        requires room { vec_len self.old.list < vec_capacity self.old.list }
        requires clear { list_any (collide booking) self.old.list.items ≡ false }
        requires some_ticks { 1 ≤ booking.length }
        ensures count { (p : Booking → Bool) → count_by p self.new.list.items ≡ count_by p self.old.list.items + (if p booking then 1 else 0) }
        ensures room { vec_capacity self.new.list ≡ vec_capacity self.old.list }
    {
        let place = self.place(&booking);
        self.list.insert(place, booking).unwrap();
    }

    /// The wanted booking at its own start or the first later one at which no booking is in its way; none where that is no tick.
    /// Each booking that is in the way moves the start to its end, and the first that is not ends the search: those after it start later still.
    pub(crate) fn first_clear(&self, mut wanted: Booking) -> Option<Booking>
        requires { 1 ≤ wanted.length }
        ensures moved { IfSome result (λ found. found ≡ span wanted.resource found.start wanted.length) }
        ensures late_enough { IfSome result (λ found. wanted.start ≤ found.start) }
        ensures clear { IfSome result (λ found. list_any (collide found) self.now.list.items ≡ false) }
        ensures not_before { IfSome result (λ found. (k : ℕ) → wanted.start ≤ k → k < found.start → list_any (collide (span wanted.resource k wanted.length)) self.now.list.items ≡ true) }
        ensures none { IsNone result → (k : ℕ) → wanted.start ≤ k → k < 2 ^ 32 → list_any (collide (span wanted.resource k wanted.length)) self.now.list.items ≡ true }
    {
        let first = self.place(&wanted);
        for b in &self.list[first..] {
            if precedes(&wanted, b) {
                return Some(wanted);
            }
            wanted.start = Tick::try_from(b.end()).ok()?;
        }
        Some(wanted)
    }

    /// Takes a booking out.
    pub(crate) fn remove(&mut self, booking: Booking)
        requires { Contains self.old.list.items booking }
        ensures count { (p : Booking → Bool) → count_by p self.new.list.items + (if p booking then 1 else 0) ≡ count_by p self.old.list.items }
        ensures room { vec_capacity self.new.list ≡ vec_capacity self.old.list }
    {
        let place = self.place(&booking);
        self.list.remove(place);
    }
}

/// Whether a booking is of a lower resource, or of the same and over by the start of the other.
/// `|` and `&` test both sides with no branch, which is faster where a search calls this.
fn precedes(a: &Booking, b: &Booking) -> bool
    ensures { result ≡ precedes a.now b.now }
{
    (a.resource < b.resource) | ((a.resource == b.resource) & (a.end() <= u64::from(b.start)))
}
