//! Calls that are refused, each with its detail, and which refusal comes first where several hold.
use crate::ask::Ask::{Place, TakeBack, Try};
use crate::case::{Refusals, check_refused};
use crate::setting::Setting;
use crate::state::{BLANK, State};
use model::Refusal::{
    AlreadyPlaced, NoRoom, NoRoute, NoSuchTask, NotAMachine, NothingToTakeBack, PredecessorUnplaced,
};
use std::test::Fail;
use timetable::{BitSheet, Roll};

/// Stations 0, 2 and 3 are machines of speed 1, station 1 is a switch; links of speed 1 join it to 0 and to 2.
/// Nothing leads to station 3. Edge 0 comes from the higher of task 2's predecessors.
pub const SPARSE: Setting = Setting {
    speeds: &[1, 0, 1, 1],
    links: &[(0, 1, 1), (1, 2, 1)],
    works: &[4, 2, 3, 1, 2],
    edges: &[(1, 2, 6), (0, 2, 5), (0, 3, 2)],
};

/// Task 0 is on machine 0.
const FIRST: State = State {
    tasks: &[(0, 0, 0)],
    transfers: &[],
    steps: &[0],
    bookings: &[(0, 0, 4)],
};

/// Tasks 0 and 1 are on machines 0 and 2.
const FEEDERS: State = State {
    tasks: &[(0, 0, 0), (1, 2, 0)],
    transfers: &[],
    steps: &[0, 1],
    bookings: &[(0, 0, 4), (2, 0, 2)],
};

/// Task 1 is where nothing leads to.
const FEEDER_AWAY: State = State {
    tasks: &[(0, 0, 0), (1, 3, 0)],
    transfers: &[],
    steps: &[0, 1],
    bookings: &[(0, 0, 4), (3, 0, 2)],
};

/// Tasks 0 and 1 are on machine 0.
pub const FEEDERS_TOGETHER: State = State {
    tasks: &[(0, 0, 0), (1, 0, 4)],
    transfers: &[],
    steps: &[0, 1],
    bookings: &[(0, 0, 4), (0, 4, 2)],
};

const IN_ORDER_OF_TESTS: [Refusals; 4] = [
    // There are tasks 0 to 4 and stations 0 to 3. An unknown task is told before a station that is no machine,
    // and that before a predecessor that is not placed.
    Refusals {
        name: "blank plan",
        setting: &SPARSE,
        state: BLANK,
        refused: &[
            (Place(5, 0), NoSuchTask(5)),
            (Place(5, 4), NoSuchTask(5)),
            (Try(5, 1), NoSuchTask(5)),
            (Place(usize::MAX, usize::MAX), NoSuchTask(usize::MAX)),
            (Place(0, 1), NotAMachine(1)),
            (Place(0, 4), NotAMachine(4)),
            (Place(4, usize::MAX), NotAMachine(usize::MAX)),
            (Place(2, 1), NotAMachine(1)),
            (Try(3, 16), NotAMachine(16)),
            (Place(2, 0), PredecessorUnplaced(0)),
            (Place(3, 2), PredecessorUnplaced(0)),
            (Try(2, 3), PredecessorUnplaced(0)),
            (TakeBack, NothingToTakeBack),
        ],
    },
    // A station that is no machine is told before a task that is placed. Task 2 waits for task 1, which is told before
    // the missing route of edge 1; only that of edge 2 is left for task 3.
    Refusals {
        name: "one task",
        setting: &SPARSE,
        state: FIRST,
        refused: &[
            (Place(5, 0), NoSuchTask(5)),
            (Place(0, 1), NotAMachine(1)),
            (Place(0, 4), NotAMachine(4)),
            (Place(0, 0), AlreadyPlaced(0)),
            (Place(0, 3), AlreadyPlaced(0)),
            (Try(0, 2), AlreadyPlaced(0)),
            (Place(2, 0), PredecessorUnplaced(1)),
            (Place(2, 3), PredecessorUnplaced(1)),
            (Place(3, 3), NoRoute(2)),
            (Try(3, 3), NoRoute(2)),
        ],
    },
    // Neither file of task 2 has a route to machine 3.
    Refusals {
        name: "two tasks",
        setting: &SPARSE,
        state: FEEDERS,
        refused: &[
            (Place(2, 3), NoRoute(0)),
            (Place(3, 3), NoRoute(2)),
            (Place(2, 1), NotAMachine(1)),
            (Place(1, 0), AlreadyPlaced(1)),
        ],
    },
    // On machine 3 edge 0 needs no route and edge 1 has none; from there edge 0 has none.
    Refusals {
        name: "one task away",
        setting: &SPARSE,
        state: FEEDER_AWAY,
        refused: &[
            (Place(2, 3), NoRoute(1)),
            (Place(2, 0), NoRoute(0)),
            (Place(2, 2), NoRoute(0)),
        ],
    },
];

#[test]
fn order_of_tests(rt: HostRuntime) -> Result<(), Fail> {
    check_refused(&rt, rt.alloc(), &IN_ORDER_OF_TESTS)
}

/// Tables with as much room as the first number says. A file between machines 0 and 2 takes two bookings.
const ROOMS: [(usize, Refusals); 3] = [
    // The table is full. A task takes at least one booking, and a missing route is told first.
    (
        2,
        Refusals {
            name: "full",
            setting: &SPARSE,
            state: FEEDERS,
            refused: &[
                (Place(4, 0), NoRoom(1)),
                (Place(3, 0), NoRoom(1)),
                (Place(3, 2), NoRoom(3)),
                (Place(2, 0), NoRoom(3)),
                (Try(2, 2), NoRoom(3)),
                (Place(2, 3), NoRoute(0)),
                (Place(0, 0), AlreadyPlaced(0)),
            ],
        },
    ),
    // Two more bookings fit. One file of task 2 needs no booking.
    (
        4,
        Refusals {
            name: "one too few",
            setting: &SPARSE,
            state: FEEDERS,
            refused: &[(Place(2, 0), NoRoom(3)), (Place(3, 2), NoRoom(3))],
        },
    ),
    // Four more bookings fit, and both files are needed.
    (
        6,
        Refusals {
            name: "one too few for two files",
            setting: &SPARSE,
            state: FEEDERS_TOGETHER,
            refused: &[(Place(2, 2), NoRoom(5)), (Try(2, 3), NoRoute(0))],
        },
    ),
];

#[test]
fn room(rt: HostRuntime) -> Result<(), Fail> {
    for (most, case) in &ROOMS {
        case.check(&rt, rt.alloc(), &mut Roll::new(rt.alloc(), *most)?)?;
        case.check(&rt, rt.alloc(), &mut BitSheet::new(rt.alloc(), 1, *most)?)?;
    }
    Ok(())
}
