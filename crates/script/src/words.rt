//! Parts a line into its words.
ghost use Rattle.std.specs.Prelude.{◌≡◌, ◌≤◌, ℕ, Bool, length};
ghost use Rattle.std.specs.Iterator.{YieldsFirstRef, item_count};
ghost use Rattle.std.specs.List.{prefix_len};
ghost use Rattle.script.specs.Words.{blank, uncommented, words_of, words_left, Parted, TestsBy};

/// Whether `byte` parts words: a space, a tab or a carriage return.
fn is_blank(byte: u8) -> bool
    ensures { result ≡ blank byte }
{
    matches!(byte, b' ' | b'\t' | b'\r')
}

/// How many bytes at the front of `text` pass `test`, up to the first that does not.
pub(crate) fn count_while<F: Fn(u8) -> bool>(text: &[u8], test: F) -> usize
    requires { F.IsAlwaysCallable test }
    ensures within { result ≤ length text.now }
    ensures value { (passes : ℕ → Bool) → TestsBy (F.post test) passes → result ≡ prefix_len passes text.now }
{
    text.iter().take_while(|byte| test(**byte)).count()
}

/// The line without its comment, which begins at the first `#`.
#[tactic(auto, using(crate::proofs::Parting::uncommented_is))]
pub fn without_comment(line: &[u8]) -> &[u8]
    ensures { result.now ≡ uncommented line.now }
{
    let end = count_while(line, |byte| byte != b'#');
    &line[..end]
}

/// The first word of `text` and what follows it, or `None` where there is no word.
#[tactic(auto, using(crate::proofs::Parting::no_word, crate::proofs::Parting::first_word, std::proofs::lemmas::List::take_rest))]
fn next_word(text: &[u8]) -> Option<(&[u8], &[u8])>
    ensures { Parted result text.now }
{
    let start = count_while(text, is_blank);
    let word = &text[start..];
    let end = count_while(word, |byte| !is_blank(byte));
    (end > 0).then_some(word.split_at(end))
}

/// The words of a text that are still to come.
#[derive(Clone, Copy)]
pub struct Words<'a> {
    rest: &'a [u8],
}

impl<'a> Words<'a> {
    /// All words of `text`.
    pub fn new(text: &'a [u8]) -> Words<'a>
        ensures { words_left result ≡ words_of text.now }
    {
        Words { rest: text }
    }
}

impl<'a> Iterator for Words<'a> {
    type Item = &'a [u8];

    ghost next_gives = { YieldsFirstRef words_left };

    ghost remaining = { item_count words_left };

    fn next(&mut self) -> Option<&'a [u8]> {
        let (word, rest) = next_word(self.rest)?;
        self.rest = rest;
        Some(word)
    }
}

impl ExactSizeIterator for Words<'_> {
    #[tactic(auto, using(crate::proofs::Parting::few_words))]
    fn len(&self) -> usize {
        self.count()
    }
}
