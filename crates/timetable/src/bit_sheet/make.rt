//! Making a bit sheet.
ghost use Rattle.std.specs.Prelude.{◌≡◌, ◌*◌, ◌<◌, ◌≤◌, ◌↔◌, IfOk, IsOk};
ghost use Rattle.timetable.specs.BitSheets.{sheet_table};
ghost use Rattle.timetable.specs.Tables.{empty_table};

use crate::bit_sheet::error::BitSheetError;
use crate::bit_sheet::{BitSheet, MOST_WORDS, RESOURCES};
use crate::roll::MOST_BOOKINGS;
use model::check;
use std::alloc::Global;

impl BitSheet {
    /// A sheet with no bookings, of 64 × `words_per_resource` ticks, with the memory for `most` bookings.
    /// The words are at most `MOST_WORDS` for each resource and the bookings at most `MOST_BOOKINGS`.
    /// From then on it needs no more memory.
    pub fn new(
        alloc: Global,
        words_per_resource: usize,
        most: usize,
    ) -> Result<BitSheet, BitSheetError>
        ensures made { IfOk result (λ sheet. sheet_table sheet ≡ empty_table (64 * words_per_resource) most) }
        ensures too_many_words { (result ≡ Err BitSheetError.TooManyWords) ↔ (MOST_WORDS < words_per_resource) }
        ensures too_many { (result ≡ Err BitSheetError.TooMany) ↔ ((words_per_resource ≤ MOST_WORDS) × (MOST_BOOKINGS < most)) }
        ensures none_needs_no_memory { words_per_resource ≡ 0 → most ≡ 0 → IsOk result }
    {
        check(
            words_per_resource <= MOST_WORDS,
            BitSheetError::TooManyWords,
        )?;
        check(most <= MOST_BOOKINGS, BitSheetError::TooMany)?;
        let count = RESOURCES * words_per_resource;
        let mut words = Vec::with_capacity(alloc, count)?;
        words.resize(count, 0)?;
        Ok(BitSheet {
            bookings: Vec::with_capacity(alloc, most)?,
            words,
            words_per_resource,
        })
    }
}
