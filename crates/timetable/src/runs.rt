//! Runs of ones and of zeros in one word.
ghost use Rattle.std.specs.Prelude.{◌≡◌, ℕ, ◌+◌, ◌<◌, ◌≤◌, min};
ghost use Rattle.std.specs.Int.{bit_at};
ghost use Rattle.timetable.specs.Bits.{EachPlace, HasPlace, AreRuns};

use crate::bits::WORD;

/// The word with ones at the places from which `count` places of `word` are ones.
/// Runs of some length and of a second one, which begins no later than the first ends, make runs of both together.
fn run_starts(word: u64, count: usize) -> u64
    requires some { 1 ≤ count }
    requires in_word { count ≤ 64 }
    ensures { AreRuns word result count }
{
    let mut starts = word;
    let mut length = 1;
    while length < count && starts != 0 {
        let more = length.min(count - length);
        starts &= starts >> more;
        length += more;
    }
    starts
}

/// The first place from which `count` places of a word are ones; 64 where there is none.
fn first_run(word: u64, count: usize) -> usize
    requires { 1 ≤ count }
    ensures in_word { result ≤ 64 }
    ensures passed { (i : ℕ) → i < result → HasPlace word 0 i count }
    ensures found { result < 64 → EachPlace word 1 result (result + count) }
{
    if count > WORD {
        return WORD;
    }
    run_starts(word, count).trailing_zeros() as usize
}

/// The first place behind a one from which `count` places are zeros, or all up to the end of the word.
pub(crate) fn next_gap(word: u64, one: usize, count: usize) -> usize
    requires in_word { one < 64 }
    requires is_one { bit_at word one ≡ 1 }
    requires some { 1 ≤ count }
    ensures behind { one ≤ result }
    ensures within { result ≤ 64 }
    ensures passed { (i : ℕ) → one ≤ i → i < result → HasPlace word 1 i count }
    ensures clear { EachPlace word 0 result (min 64 (result + count)) }
{
    let run = first_run(!word >> one, count);
    if run < WORD {
        one + run
    } else {
        WORD - word.leading_zeros() as usize
    }
}
