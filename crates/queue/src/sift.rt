//! Keeping a slice a heap.
ghost use Rattle.std.specs.Prelude.{◌≡◌, ◌+◌, ◌-◌, ◌*◌, ◌<◌, ◌≤◌, ◌∷◌, length, take};
ghost use Rattle.std.specs.List.Sorted.{IsPermutation};
ghost use Rattle.queue.specs.Heaps.{IsHeap, IsHeapFrom, IsFirstChild};
ghost use Rattle.queue.specs.Orders.{IsFirst};

use crate::rank::Rank;

/// Moves the last element up until it is not before its parent.
pub fn sift_up<T: Rank>(heap: &mut [T])
    requires some { 0 < length heap.old }
    requires heap { IsHeap T.before heap.old (length heap.old - 1) }
    ensures heap { IsHeap T.before heap.new (length heap.old) }
    ensures items { IsPermutation heap.old heap.new }
{
    let mut i = heap.len() - 1;
    // From child to parent, in steps that depend on the order: no range goes so.
    while i > 0 {
        let parent = (i - 1) / 2;
        if !heap[i].precedes(&heap[parent]) {
            return;
        }
        heap.swap(parent, i);
        i = parent;
    }
}

/// Moves the element at 0 down until none of its children is before it.
pub fn sift_down<T: Rank>(heap: &mut [T])
    requires heap { IsHeapFrom T.before 1 heap.old (length heap.old) }
    ensures heap { IsHeap T.before heap.new (length heap.old) }
    ensures items { IsPermutation heap.old heap.new }
{
    let mut i = 0;
    // From parent to first child, in steps that depend on the order.
    while i < heap.len() / 2 {
        let child = first_child(heap, i);
        if !heap[child].precedes(&heap[i]) {
            return;
        }
        heap.swap(i, child);
        i = child;
    }
}

/// Gives the first element of a heap, and leaves the others as a heap of one less.
pub fn take_first<T: Rank>(heap: &mut [T]) -> T
    requires some { 0 < length heap.old }
    requires heap { IsHeap T.before heap.old (length heap.old) }
    ensures heap { IsHeap T.before heap.new (length heap.old - 1) }
    ensures first { IsFirst T.before heap.old result }
    ensures items { IsPermutation heap.old (result ∷ take (length heap.old - 1) heap.new) }
{
    let last = heap.len() - 1;
    let first = heap[0];
    heap.swap(0, last);
    sift_down(&mut heap[..last]);
    first
}

/// The child of `i` that no other child of it is before.
fn first_child<T: Rank>(heap: &[T], i: usize) -> usize
    requires some { i * 2 + 1 < length heap.now }
    ensures { IsFirstChild T.before heap.now i (length heap.now) result }
{
    let left = i * 2 + 1;
    let right = left + 1;
    if right < heap.len() && heap[right].precedes(&heap[left]) {
        right
    } else {
        left
    }
}
