//! The row of one transfer.
ghost use Rattle.std.specs.Prelude.{◌≡◌, [], ◌∷◌, ◌++◌, length, take, if◌then◌else◌, nat_lt, is_ok};
ghost use Rattle.std.specs.List.{slice_get};
ghost use Rattle.model.specs.Plans.{starts_of, start_answer};

use super::error::PlanError;
use super::{MOST_HOPS, TransferRow};
use crate::refusal::check;
use crate::tick::Tick;

impl TransferRow {
    /// A row with no starts.
    pub fn new() -> TransferRow
        ensures { starts_of result ≡ [] }
    {
        TransferRow {
            starts: [0; MOST_HOPS],
            count: 0,
        }
    }

    /// A row with these starts, or with the first 15 of them.
    pub fn of(starts: &[Tick]) -> TransferRow
        ensures { starts_of result ≡ take 15 starts.now }
    {
        let count = starts.len().min(MOST_HOPS);
        let mut places = [0; MOST_HOPS];
        places[..count].copy_from_slice(&starts[..count]);
        TransferRow {
            starts: places,
            count,
        }
    }

    /// The starts, hop by hop.
    pub fn starts(&self) -> &[Tick]
        ensures { result.now ≡ starts_of self.now }
    {
        &self.starts[..self.count]
    }

    /// How many starts there are.
    pub fn count(&self) -> usize
        ensures { result ≡ length (starts_of self.now) }
    {
        self.starts().len()
    }

    /// The start on hop `k`.
    pub fn start(&self, k: usize) -> Option<Tick>
        ensures { result ≡ slice_get (starts_of self.now) k }
    {
        self.starts().get(k).copied()
    }

    /// Adds the start on the next hop, unless the row is full.
    pub fn push(&mut self, start: Tick) -> Result<(), PlanError>
        ensures answer { result ≡ start_answer (starts_of self.old) }
        ensures fits { is_ok result ≡ nat_lt (length (starts_of self.old)) 15 }
        ensures row { starts_of self.new ≡ (if is_ok result then starts_of self.old ++ start ∷ [] else starts_of self.old) }
    {
        check(self.count < MOST_HOPS, PlanError::Full)?;
        self.starts[self.count] = start;
        self.count += 1;
        Ok(())
    }
}
