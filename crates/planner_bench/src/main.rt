//! The fill of a blank sheet by a job as large as there can be, on a network as large as there can be.
//! Prints the length of the plan and, if it is given an argument, how long the fill took:
//! `rt run -- time`, in this folder. What it prints cannot be worked out by hand: `tools/fill.py` works it out by the
//! rules of fill, and the file `stdout` has what that prints.
#![tactic(auto)]

use model::network::{MOST_LINKS, MOST_STATIONS};
use model::plan::{TASK_ROWS, TRANSFER_ROWS};
use model::{Edge, Job, Link, Network, Plan, Speed, Station, StationSet};
use planner::opening::new_sheet;
use routes::searched::kinds::routes_by_hops;
use std::alloc::Global;
use std::env;
use std::time::Instant;
use timetable::roll::MOST_BOOKINGS;
use timetable::{Askable, Roll};

/// The tasks stand in layers of so many. Each feeds two tasks of the next layer.
const LAYER: usize = 16;

/// How far apart in their layer these two are, and the stations that a link of the second half joins.
const STRIDE: usize = 5;

fn work_of(task: usize) -> u32 {
    100 + (task.wrapping_mul(73) % 400) as u32
}

fn edge_of(edge: usize) -> Edge {
    let from = edge / 2;
    let place = from.wrapping_add(edge % 2 * STRIDE) % LAYER;
    Edge {
        from,
        to: (from / LAYER + 1) * LAYER + place,
        volume: 20 + (edge.wrapping_mul(29) % 80) as u32,
    }
}

fn machine_of(machine: usize) -> Station {
    Station::Machine(Speed {
        rate: 1 + (machine % 4) as u32,
    })
}

/// Links 0 to 15 join each station to the next one, the others each to the one `STRIDE` further on.
fn link_of(link: usize) -> Link {
    let step = if link < MOST_STATIONS { 1 } else { STRIDE };
    let stations = StationSet::new()
        .with(link % MOST_STATIONS)
        .with(link.wrapping_add(step) % MOST_STATIONS);
    Link {
        stations,
        speed: Speed {
            rate: 1 + (link % 3) as u32,
        },
    }
}

fn job(heap: Global) -> anyhow::Result<Job> {
    let works = (0..TASK_ROWS).map(work_of).collect(heap)?;
    let edges = (0..TRANSFER_ROWS).map(edge_of).collect(heap)?;
    Ok(Job::new(works, edges)?)
}

fn network(heap: Global) -> anyhow::Result<Network> {
    let stations = (0..MOST_STATIONS).map(machine_of).collect(heap)?;
    let links = (0..MOST_LINKS).map(link_of).collect(heap)?;
    Ok(Network::new(stations, links)?)
}

fn main(rt: HostRuntime) -> anyhow::Result<()> {
    let heap = rt.alloc();
    let timed = env::args(&rt)?.count() > 1;
    let job = job(heap)?;
    let routes = routes_by_hops(heap, network(heap)?)?;
    let (mut plan, mut table) = (Plan::new(), Roll::new(heap, MOST_BOOKINGS)?);
    let mut sheet = new_sheet(&mut plan, &table)?;
    let begin = Instant::now(&rt)?;
    let length = sheet.fill(&routes, &job, &mut plan, &mut table)?;
    let took = begin.elapsed(&rt)?.as_micros();
    let (steps, bookings) = (plan.step_count(), table.count());
    println!(rt; "{steps} tasks in {bookings} bookings, length {length}")?;
    if timed {
        println!(rt; "filled in {took} microseconds")?;
    }
    Ok(())
}
