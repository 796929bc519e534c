//! Reads decimal numbers.
ghost use Rattle.std.specs.Prelude.{◌≡◌, ℕ, IsSome, MatchOption, ◌<◌, length, drop};
ghost use Rattle.std.specs.Iterator.{YieldsFirst, item_count};
ghost use Rattle.std.specs.Option.{option_map};
ghost use Rattle.script.specs.Number.{number_of, numbers_of, first_number, exactly_of};
ghost use Rattle.script.specs.Spelling.{Spells};
ghost use Rattle.script.specs.Words.{words_left};

use crate::error::LineError;
use crate::words::Words;

/// The number that `word` spells: decimal digits alone, of a value up to 4294967295.
/// Zeros may stand in front, in any number: `007` is 7.
#[tactic(auto, using(crate::proofs::Numbers::value_grows, crate::proofs::Numbers::value_at))]
pub fn read_number(word: &[u8]) -> Option<u32>
    ensures value { result ≡ number_of word.now }
    ensures spells { MatchOption result ((n : ℕ) → Spells word.now n → ⊥) (λ n. Spells word.now n) }
{
    // No byte of an empty word fails, so it is refused here.
    if word.is_empty() {
        return None;
    }
    let mut value: u32 = 0;
    for byte in word {
        let digit = char::from(*byte).to_digit(10)?;
        value = value.checked_mul(10)?.checked_add(digit)?;
    }
    Some(value)
}

/// The number that the next of `words` spells.
pub fn next_number(words: &mut Words) -> Result<u32, LineError>
    ensures number { result ≡ first_number (words_left words.old) }
    ensures rest { words_left words.new ≡ drop 1 (words_left words.old) }
{
    words
        .next()
        .and_then(read_number)
        .ok_or(LineError::NotUnderstood)
}

/// How many `words` are, if each spells a number.
#[tactic(auto, using(crate::proofs::Parting::few_words))]
fn count_numbers(words: Words) -> Option<usize>
    ensures { result ≡ option_map (λ ns. length ns) (numbers_of (words_left words.entry)) }
{
    let mut count = 0;
    for word in words {
        read_number(word)?;
        count += 1;
    }
    Some(count)
}

/// The numbers that `words` spell, if they are `N` and each spells one. Each word is read once.
pub fn exactly<const N: usize>(mut words: Words) -> Result<[u32; N], LineError>
    ensures { result ≡ exactly_of N (numbers_of (words_left words.entry)) }
{
    let mut numbers = [0; N];
    for number in &mut numbers {
        *number = words
            .next()
            .and_then(read_number)
            .ok_or(LineError::NotUnderstood)?;
    }
    match words.next() {
        None => Ok(numbers),
        Some(_) => Err(LineError::NotUnderstood),
    }
}

/// The numbers of a text that are still to come, and how many they are: each of its words spells one.
#[derive(Clone, Copy)]
pub struct Numbers<'a> {
    words: Words<'a>,
    count: usize,
    ghost each: { IsSome (numbers_of (words_left words)) },
    ghost counted: { count ≡ length (words_left words) },
}

impl<'a> Numbers<'a> {
    ghost use Rattle.script.specs.Left.{numbers_left};

    /// The numbers of `words`, if each word spells one.
    #[tactic(auto, using(crate::proofs::Numbers::counted))]
    pub fn new(words: Words<'a>) -> Option<Numbers<'a>>
        ensures { option_map numbers_left result ≡ numbers_of (words_left words.entry) }
    {
        let count = count_numbers(words)?;
        Some(Numbers { words, count })
    }
}

impl Iterator for Numbers<'_> {
    ghost use Rattle.script.specs.Left.{numbers_left};

    type Item = u32;

    ghost next_gives = { YieldsFirst numbers_left };

    ghost remaining = { item_count numbers_left };

    fn next(&mut self) -> Option<u32> {
        let word = self.words.next()?;
        self.count -= 1;
        read_number(word)
    }
}

impl ExactSizeIterator for Numbers<'_> {
    #[tactic(auto, using(crate::proofs::Numbers::numbers_length))]
    fn len(&self) -> usize {
        self.count
    }
}
