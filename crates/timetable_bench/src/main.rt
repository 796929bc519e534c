//! Ten thousand questions to each of four full timetables, of each kind.
//! Prints what the answers add up to and, if it is given an argument, how long they took:
//! `rt run -- time`, in this folder.
#![tactic(auto)]

use anyhow::Context;
use model::{Booking, Tick};
use std::env;
use std::rt::Clock;
use std::time::Instant;
use timetable::bit_sheet::MOST_WORDS;
use timetable::roll::MOST_BOOKINGS;
use timetable::{Askable, BitSheet, Roll, Writable};

/// As many bookings as a roll can hold.
const BOOKINGS: Tick = MOST_BOOKINGS as Tick;

const QUESTIONS: Tick = 10_000;

/// Bookings on the first `resources` resources, of 4 ticks in every 10.
/// The one that is made i-th is the one at place i × `step` in the order of time, going round.
#[derive(Clone, Copy)]
struct Load {
    name: &'static str,
    resources: Tick,
    step: Tick,
}

const LOADS: [Load; 4] = [
    Load {
        name: "48 resources",
        resources: 48,
        step: 1,
    },
    Load {
        name: "one resource, earliest booked first",
        resources: 1,
        step: 1,
    },
    Load {
        name: "one resource, latest booked first",
        resources: 1,
        step: 4095,
    },
    Load {
        name: "one resource, booked in no order",
        resources: 1,
        step: 1709,
    },
];

impl Load {
    /// The number of the resource that comes `i`-th.
    fn resource(&self, i: Tick) -> usize {
        i.checked_rem(self.resources).unwrap_or(0) as usize
    }

    /// Makes these bookings.
    fn book<W: Writable>(&self, table: &mut W) -> anyhow::Result<()> {
        for i in 0..BOOKINGS {
            let place = i.wrapping_mul(self.step) % BOOKINGS;
            let booking = Booking {
                resource: self.resource(place),
                start: place * 10,
                length: 4,
            };
            table.book(booking).context("a booking was refused")?;
        }
        Ok(())
    }

    /// Asks for more ticks than any gap between two bookings has, and adds up the answers.
    fn ask<T: Askable>(&self, table: &T) -> u64 {
        let ticks = self.resources.saturating_mul(10);
        (0..QUESTIONS)
            .filter_map(|i| table.earliest(self.resource(i), i % 100, ticks))
            .map(u64::from)
            .fold(0, u64::wrapping_add)
    }
}

/// Books a load on an empty timetable and asks it, and prints the answers and, where it is `timed`, the times.
fn run<R: Print + Clock, W: Writable>(
    rt: &R,
    kind: &str,
    table: &mut W,
    load: Load,
    timed: bool,
) -> anyhow::Result<()> {
    let name = load.name;
    let begin = Instant::now(rt)?;
    load.book(table)?;
    let booked = begin.elapsed(rt)?.as_micros();
    let begin = Instant::now(rt)?;
    let sum = load.ask(table);
    let asked = begin.elapsed(rt)?.as_micros();
    println!(rt; "{kind}, {name}: {QUESTIONS} answers add up to {sum}")?;
    if timed {
        println!(rt; "  booked in {booked} microseconds, asked in {asked}")?;
    }
    Ok(())
}

fn main(rt: HostRuntime) -> anyhow::Result<()> {
    let timed = env::args(&rt)?.count() > 1;
    for load in LOADS {
        let mut roll = Roll::new(rt.alloc(), MOST_BOOKINGS)?;
        run(&rt, "roll", &mut roll, load, timed)?;
        let mut sheet = BitSheet::new(rt.alloc(), MOST_WORDS, MOST_BOOKINGS)?;
        run(&rt, "bit sheet", &mut sheet, load, timed)?;
    }
    Ok(())
}
