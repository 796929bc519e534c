//! Asking a roll.
ghost use Rattle.std.specs.Prelude.{◌≡◌, ◌≤◌};
ghost use Rattle.timetable.specs.Rolls.{roll_table, roll_horizon, roll_count};

use crate::ask::Askable;
use crate::roll::{HORIZON, Roll};
use model::network::{MOST_LINKS, MOST_STATIONS};
use model::{Booking, Tick};

/// The greatest number of a resource.
const LAST_RESOURCE: usize = MOST_STATIONS + MOST_LINKS - 1;

impl Askable for Roll {
    ghost meaning = { roll_table };

    fn horizon(&self) -> Tick {
        HORIZON
    }

    fn most(&self) -> usize {
        self.bookings.capacity()
    }

    fn count(&self) -> usize {
        self.bookings.len()
    }

    fn booking(&self, place: usize) -> Option<Booking> {
        self.bookings.get(place).copied()
    }

    fn earliest(&self, resource: usize, from: Tick, ticks: Tick) -> Option<Tick> {
        if ticks == 0 || resource > LAST_RESOURCE {
            return None;
        }
        let found = self.by_start.first_clear(Booking {
            resource,
            start: from,
            length: ticks,
        })?;
        (found.end() <= u64::from(HORIZON)).then_some(found.start)
    }

    ghost horizon_limit = { roll_horizon };

    ghost count_limit = { roll_count };
}
