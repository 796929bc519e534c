//! Asking a bit sheet.
ghost use Rattle.std.specs.Prelude.{◌≡◌, ◌≤◌};
ghost use Rattle.timetable.specs.BitSheets.{sheet_table, sheet_horizon, sheet_count};

use crate::ask::Askable;
use crate::bit_sheet::{BitSheet, RESOURCES, first_bit};
use crate::bits::WORD;
use crate::gap::first_gap;
use model::{Booking, Tick};

impl Askable for BitSheet {
    ghost meaning = { sheet_table };

    fn horizon(&self) -> Tick {
        (WORD * self.words_per_resource) as Tick
    }

    fn most(&self) -> usize {
        self.bookings.capacity()
    }

    fn count(&self) -> usize {
        self.bookings.len()
    }

    fn booking(&self, place: usize) -> Option<Booking> {
        self.bookings.get(place).copied()
    }

    fn earliest(&self, resource: usize, from: Tick, ticks: Tick) -> Option<Tick> {
        let horizon = self.horizon();
        if ticks == 0 || resource >= RESOURCES || from > horizon {
            return None;
        }
        let first = first_bit(self.words_per_resource, resource);
        let gap = first_gap(
            &self.words,
            first + from as usize,
            first + horizon as usize,
            ticks as usize,
        )?;
        Some((gap - first) as Tick)
    }

    ghost horizon_limit = { sheet_horizon };

    ghost count_limit = { sheet_count };
}
