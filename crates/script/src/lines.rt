//! The lines of a whole script, one after the other.
ghost use Rattle.std.specs.Prelude.{⊤, ◌≡◌, ◌<◌, true, length, drop, is_some};
ghost use Rattle.std.specs.Iterator.{YieldsFirstRef, MakesProgress, item_count};
ghost use Rattle.std.specs.Option.{option_map};
ghost use Rattle.std.specs.List.{slice_get};
ghost use Rattle.script.specs.Lines.{Splits, lines_left, lines_of};

use crate::words::count_while;

/// The lines of a text that are still to come.
#[derive(Drop)]
pub struct Lines<'a> {
    rest: &'a [u8],
}

impl<'a> Lines<'a> {
    /// All lines of `text`.
    pub fn new(text: &'a [u8]) -> Lines<'a>
        ensures left { lines_left result ≡ lines_of text.now }
        ensures splits { Splits text.now (lines_left result) }
    {
        Lines { rest: text }
    }
}

impl<'a> Iterator for Lines<'a> {
    type Item = &'a [u8];

    ghost next_gives = { YieldsFirstRef lines_left };

    ghost remaining = { item_count lines_left };

    // With clauses beside the trait's, a `for` over lines needs a measure: `length (lines_left ..)` of its iterator.
    /// The next line, without the newline that ends it.
    #[tactic(auto, using(crate::proofs::Lining::first_line, std::proofs::lemmas::List::take_rest))]
    fn next(&mut self) -> Option<&'a [u8]>
        ensures steps { YieldsFirstRef lines_left self.old result self.new }
        ensures goes { MakesProgress (λ _. ⊤) (item_count lines_left) self.old result self.new }
        ensures line { option_map (λ x. x.now) result ≡ slice_get (lines_left self.old) 0 }
        ensures left { lines_left self.new ≡ drop 1 (lines_left self.old) }
        ensures fewer { is_some result ≡ true → length (lines_left self.new) < length (lines_left self.old) }
    {
        let text = self.rest;
        // After the last newline no empty line follows.
        if text.is_empty() {
            return None;
        }
        let end = count_while(text, |byte| byte != b'\n');
        let next = text.len().min(end + 1);
        self.rest = &text[next..];
        Some(&text[..end])
    }
}
