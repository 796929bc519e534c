//! Numbers two by two, as hops.
ghost use Rattle.std.specs.Prelude.{◌≡◌, length};
ghost use Rattle.std.specs.Iterator.{YieldsFirst, item_count};
ghost use Rattle.std.specs.Option.{option_map};
ghost use Rattle.script.specs.Left.{numbers_left, hops_left};
ghost use Rattle.script.specs.Statement.{hops_of};

use crate::line::HopWords;
use crate::number::Numbers;

/// The hops of a text that are still to come: each two of its numbers are one.
#[derive(Drop)]
pub struct Hops<'a> {
    numbers: Numbers<'a>,
}

impl<'a> Hops<'a> {
    /// The hops of `numbers`, if none is left over.
    #[tactic(auto, using(crate::proofs::Hops::hops_paired))]
    pub fn new(numbers: Numbers<'a>) -> Option<Hops<'a>>
        ensures { option_map hops_left result ≡ hops_of (numbers_left numbers.entry) }
    {
        numbers.len().is_multiple_of(2).then_some(Hops { numbers })
    }
}

impl Iterator for Hops<'_> {
    type Item = HopWords;

    ghost next_gives = { YieldsFirst hops_left };

    ghost remaining = { item_count hops_left };

    fn next(&mut self) -> Option<HopWords> {
        let link = self.numbers.next()?;
        let station = self.numbers.next()?;
        Some(HopWords { link, station })
    }
}

impl ExactSizeIterator for Hops<'_> {
    #[tactic(auto, using(crate::proofs::Hops::paired_length))]
    fn len(&self) -> usize {
        self.numbers.len() / 2
    }
}
