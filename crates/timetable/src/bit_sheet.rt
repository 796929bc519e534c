//! A timetable with a bit for each tick.
ghost use Rattle.std.specs.Prelude.{◌≡◌, ◌+◌, ◌*◌, ◌<◌, ◌≤◌, All, vec_len, vec_capacity};
ghost use Rattle.timetable.specs.Marks.{AreMarked, HasBits};
ghost use Rattle.timetable.specs.declared.bit_sheet.TheConstants.{MOST_WORDS};
ghost use Rattle.timetable.specs.declared.roll.TheConstants.{MOST_BOOKINGS};

use crate::bits::WORD;
use model::Booking;
use model::network::{MOST_LINKS, MOST_STATIONS};

mod answer;
mod change;
pub mod error;
mod make;

/// How many words of 64 ticks a resource can have at most.
pub const MOST_WORDS: usize = 1024;

/// How many resources there are.
const RESOURCES: usize = MOST_STATIONS + MOST_LINKS;

/// The bookings in the order they were made, and one bit for each tick of each resource.
/// Each resource has `words_per_resource` words, one resource behind the other.
/// The memory is got when the sheet is made: how much that is says how many bookings there may be.
#[derive(Drop)]
pub struct BitSheet {
    bookings: Vec<Booking>,
    words: Vec<u64>,
    words_per_resource: usize,
    ghost few: { vec_capacity bookings ≤ MOST_BOOKINGS },
    ghost narrow: { words_per_resource ≤ MOST_WORDS },
    ghost all_words: { vec_len words ≡ 48 * words_per_resource },
    ghost have_bits: { All (HasBits words_per_resource) bookings.items },
    ghost are_marked: { AreMarked words.items words_per_resource bookings.items },
}

/// The bit of tick 0 of a resource.
fn first_bit(words_per_resource: usize, resource: usize) -> usize
    requires narrow { words_per_resource ≤ MOST_WORDS }
    requires known { resource < 48 }
    ensures is { result ≡ 64 * (resource * words_per_resource) }
    ensures in_words { result + 64 * words_per_resource ≤ 64 * (48 * words_per_resource) }
{
    WORD * (resource * words_per_resource)
}
