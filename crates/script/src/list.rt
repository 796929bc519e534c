//! Lists of what comes one by one.
ghost use Rattle.std.specs.Prelude.{◌≡◌, ◌<◌, MatchResult};
ghost use Rattle.std.specs.Iterator.{Drains, IsFinite, size};
ghost use Rattle.script.specs.declared.error.LineError.TheVariants.{Memory};

use crate::error::LineError;
use std::alloc::Global;

/// A list of all `items`. Memory can run out only where there are some.
pub fn list_of<T: Drop, I: ExactSizeIterator<Item = T>>(
    heap: Global,
    items: I,
) -> Result<Vec<T>, LineError>
    requires can { I.can_next items }
    requires ends { IsFinite (I.remaining items) }
    ensures { MatchResult result (λ list. Drains I.next_gives items list.items) (λ e. (e ≡ Memory) × (0 < size (I.remaining items))) }
{
    // A `collect` would not say that no items need no memory.
    let mut list = Vec::with_capacity(heap, items.len())?;
    for item in items {
        list.push(item)?;
    }
    Ok(list)
}
