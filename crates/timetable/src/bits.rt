//! Bits in a row of 64-bit words, written a word at a time.
ghost use Rattle.std.specs.Prelude.{◌≡◌, ◌*◌, ◌<◌, ◌≤◌, length};
ghost use Rattle.std.specs.Int.{bit_at};
ghost use Rattle.timetable.specs.Bits.{IsWritten, EachPlace};

/// How many bits a word has.
pub(crate) const WORD: usize = 64;

/// The word with ones from place `low` up to place `high`.
fn ones(low: usize, high: usize) -> u64
    requires some { low < high }
    requires in_word { high ≤ 64 }
    ensures below { EachPlace result 0 0 low }
    ensures inside { EachPlace result 1 low high }
    ensures above { EachPlace result 0 high 64 }
{
    (u64::MAX << low) & (u64::MAX >> (WORD - high))
}

/// The first place at or after `from` where a word has a one; 64 where there is none.
pub(crate) fn first_one(word: u64, from: usize) -> usize
    requires { from < 64 }
    ensures late_enough { from ≤ result }
    ensures in_word { result ≤ 64 }
    ensures passed { EachPlace word 0 from result }
    ensures found { result < 64 → bit_at word result ≡ 1 }
{
    let rest = word >> from;
    WORD.min(from + rest.trailing_zeros() as usize)
}

/// Sets the bits from `from` up to `end`.
pub(crate) fn set_bits(words: &mut [u64], from: usize, end: usize)
    requires order { from ≤ end }
    requires in_words { end ≤ 64 * length words.old }
    ensures { IsWritten words.old words.new 1 from end }
{
    let mut at = from;
    while at < end {
        let word = at / WORD;
        let high = WORD.min(end - WORD * word);
        words[word] |= ones(at % WORD, high);
        at = WORD * word + high;
    }
}

/// Clears the bits from `from` up to `end`.
pub(crate) fn clear_bits(words: &mut [u64], from: usize, end: usize)
    requires order { from ≤ end }
    requires in_words { end ≤ 64 * length words.old }
    ensures { IsWritten words.old words.new 0 from end }
{
    let mut at = from;
    while at < end {
        let word = at / WORD;
        let high = WORD.min(end - WORD * word);
        words[word] &= !ones(at % WORD, high);
        at = WORD * word + high;
    }
}
