//! A run of clear bits.
ghost use Rattle.std.specs.Prelude.{◌≡◌, ℕ, ◌+◌, ◌*◌, ◌%◌, ◌^◌, ◌<◌, ◌≤◌, length, IfSome, IsNone};
ghost use Rattle.timetable.specs.Bits.{HasSetBit, IsFirstGap};

use crate::bits::{WORD, first_one};
use crate::runs::next_gap;

/// The first place at or after `from` where `count` bits before `end` are clear.
/// Each word is read once. Between words `start` is the first place that is still possible.
pub(crate) fn first_gap(words: &[u64], from: usize, end: usize, count: usize) -> Option<usize>
    requires order { from ≤ end }
    requires in_words { end ≤ 64 * length words.now }
    requires whole_words { end % 64 ≡ 0 }
    requires end_fits { end < 2 ^ 32 }
    requires some { 1 ≤ count }
    requires count_fits { count < 2 ^ 32 }
    ensures found { IfSome result (λ s. IsFirstGap words.now from end count s) }
    ensures none { IsNone result → (k : ℕ) → from ≤ k → k + count ≤ end → HasSetBit words.now k count }
{
    let mut start = from;
    let mut at = from;
    while at < end {
        let first = WORD * (at / WORD);
        let word = words[at / WORD];
        let one = first_one(word, at % WORD);
        if start + count <= first + one {
            return Some(start);
        }
        if one < WORD {
            let place = next_gap(word, one, count);
            start = first + place;
            if place + count <= WORD {
                return Some(start);
            }
        }
        at = first + WORD;
    }
    None
}
