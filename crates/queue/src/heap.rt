//! A priority queue over a lent slice.
ghost use Rattle.std.specs.Prelude.{◌≤◌, length};
ghost use Rattle.queue.specs.Heaps.{IsHeap};

use crate::rank::Rank;
use crate::sift::{sift_up, take_first};

/// A queue whose first `len` slots hold its elements, as a heap.
#[derive(Drop)]
pub struct Queue<'a, T: Rank> {
    slots: &'a mut [T],
    len: usize,
    ghost fits: { len ≤ length slots.now },
    ghost ordered: { IsHeap T.before slots.now len },
}

impl<'a, T: Rank> Queue<'a, T> {
    ghost use Rattle.std.specs.Prelude.{◌≡◌, ◌↔◌, ◌+◌, [], ◌∷◌, length, IsTrue, IsNone, IfSome, IfNone, IsErr, OnOk, IfErr, OnErr};
    ghost use Rattle.std.specs.List.Sorted.{IsPermutation};
    ghost use Rattle.queue.specs.Items.{items, room};
    ghost use Rattle.queue.specs.Orders.{IsFirst};

    /// An empty queue, with room for as many elements as `slots` has.
    pub fn new(slots: &'a mut [T]) -> Queue<'a, T>
        ensures items { items result ≡ [] }
        ensures room { room result ≡ length slots.old }
    {
        Queue { slots, len: 0 }
    }

    /// How many elements it holds.
    pub fn len(&self) -> usize
        ensures { result ≡ length (items self.now) }
    {
        self.len
    }

    /// Whether it holds none.
    pub fn is_empty(&self) -> bool
        ensures { IsTrue result ↔ (items self.now ≡ []) }
    {
        self.len == 0
    }

    /// The first element, which stays in the queue.
    pub fn peek(&self) -> Option<T>
        ensures first { IfSome result (IsFirst T.before (items self.now)) }
        ensures empty { IsNone result ↔ (items self.now ≡ []) }
    {
        self.slots[..self.len].first().copied()
    }

    /// Takes `x` in, or hands it back where the queue is full.
    pub fn push(&mut self, x: T) -> Result<(), T>
        ensures full { IsErr result ↔ (length (items self.old) ≡ room self.old) }
        ensures taken { OnOk result (IsPermutation (x ∷ items self.old) (items self.new)) }
        ensures count { OnOk result (length (items self.new) ≡ length (items self.old) + 1) }
        ensures handed_back { IfErr result (λ y. y ≡ x) }
        ensures unchanged { OnErr result (self.new ≡ self.old) }
        ensures room { room self.new ≡ room self.old }
    {
        let at = self.len;
        // No `get_mut(at)`: its loan leaves unsaid that the slots before stay a heap.
        if at == self.slots.len() {
            return Err(x);
        }
        self.slots[at] = x;
        sift_up(&mut self.slots[..=at]);
        self.len = at + 1;
        Ok(())
    }

    /// Takes the first element out.
    pub fn pop(&mut self) -> Option<T>
        ensures first { IfSome result (IsFirst T.before (items self.old)) }
        ensures left { IfSome result (λ x. IsPermutation (items self.old) (x ∷ items self.new)) }
        ensures count { IfSome result (λ _. length (items self.new) + 1 ≡ length (items self.old)) }
        ensures empty { IsNone result ↔ (items self.old ≡ []) }
        ensures unchanged { IfNone result (self.new ≡ self.old) }
        ensures room { room self.new ≡ room self.old }
    {
        let last = self.len.checked_sub(1)?;
        // Before the slots are rearranged, since those that count are a heap at each write.
        self.len = last;
        Some(take_first(&mut self.slots[..=last]))
    }
}
