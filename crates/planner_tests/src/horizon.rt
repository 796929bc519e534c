//! Questions that have no start before the horizon: 64 ticks of a bit sheet, and 2,000,000,000 of a roll.
use crate::ask::Ask::{Place, TakeBack, Try};
use crate::case::{Continued, Refusals};
use crate::refusing::{FEEDERS_TOGETHER, SPARSE};
use crate::setting::Setting;
use crate::state::{BLANK, State};
use certificate::Answer::{Finish, Refused, Task};
use model::Refusal::{NoRoom, NoStart};
use model::Tick;
use std::test::Fail;
use timetable::{BitSheet, Roll};

/// Three machines of speed 1 in a line, with links of speed 1.
const LINE: Setting = Setting {
    speeds: &[1, 1, 1],
    links: &[(0, 1, 1), (1, 2, 1)],
    works: &[4, 3],
    edges: &[(0, 1, 5)],
};

/// The first link takes 3 ticks, the second 5.
const SLOW_SECOND: Setting = Setting {
    links: &[(0, 1, 2), (1, 2, 1)],
    ..LINE
};

/// Tasks 0 and 1 feed task 2, from machine 0 over link 0 and from machine 1 over link 1.
const TWO_FILES: Setting = Setting {
    links: &[(0, 2, 1), (1, 2, 1)],
    works: &[4, 4, 3],
    edges: &[(0, 2, 5), (1, 2, 5)],
    ..LINE
};

/// Tasks of 65 and of 64 ticks.
const LONG_TASKS: Setting = Setting {
    speeds: &[1],
    links: &[],
    works: &[65, 64],
    edges: &[],
};

/// Task 0 on machine 0 from 56 to 60.
const UNTIL_60: State = State {
    tasks: &[(0, 0, 56)],
    transfers: &[],
    steps: &[0],
    bookings: &[(0, 56, 4)],
};

/// Task 0 on machine 0 from 55 to 59.
const UNTIL_59: State = State {
    tasks: &[(0, 0, 55)],
    transfers: &[],
    steps: &[0],
    bookings: &[(0, 55, 4)],
};

/// Task 0 on machine 0 from 53 to 57.
const UNTIL_57: State = State {
    tasks: &[(0, 0, 53)],
    transfers: &[],
    steps: &[0],
    bookings: &[(0, 53, 4)],
};

const PAST_64: [Refusals; 7] = [
    // Link 0 would be taken from 60 to 65.
    Refusals {
        name: "first link",
        setting: &LINE,
        state: UNTIL_60,
        refused: &[
            (Place(1, 1), NoStart(16)),
            (Place(1, 2), NoStart(16)),
            (Try(1, 2), NoStart(16)),
        ],
    },
    // Each link is taken from 59 to 64, and no tick is left for the task.
    Refusals {
        name: "machine",
        setting: &LINE,
        state: UNTIL_59,
        refused: &[
            (Place(1, 1), NoStart(1)),
            (Place(1, 2), NoStart(2)),
            (Try(1, 2), NoStart(2)),
        ],
    },
    // Each link is taken from 57 to 62, and the task would end at 65.
    Refusals {
        name: "one tick too few",
        setting: &LINE,
        state: UNTIL_57,
        refused: &[(Place(1, 1), NoStart(1)), (Place(1, 2), NoStart(2))],
    },
    // Link 0 is taken from 60 to 63, link 1 would be from 60 to 65.
    Refusals {
        name: "second link",
        setting: &SLOW_SECOND,
        state: UNTIL_60,
        refused: &[(Place(1, 2), NoStart(17)), (Place(1, 1), NoStart(1))],
    },
    // Both links would be taken past 64; edge 0 goes first.
    Refusals {
        name: "both files",
        setting: &TWO_FILES,
        state: State {
            tasks: &[(0, 0, 56), (1, 1, 57)],
            transfers: &[],
            steps: &[0, 1],
            bookings: &[(0, 56, 4), (1, 57, 4)],
        },
        refused: &[(Place(2, 2), NoStart(16))],
    },
    // Link 0 is taken from 50 to 55, link 1 would be from 60 to 65. To machine 0 edge 1 goes over both links, over link 1 first.
    Refusals {
        name: "second file",
        setting: &TWO_FILES,
        state: State {
            tasks: &[(0, 0, 46), (1, 1, 56)],
            transfers: &[],
            steps: &[0, 1],
            bookings: &[(0, 46, 4), (1, 56, 4)],
        },
        refused: &[(Place(2, 2), NoStart(17)), (Try(2, 0), NoStart(17))],
    },
    Refusals {
        name: "long task",
        setting: &LONG_TASKS,
        state: BLANK,
        refused: &[(Place(0, 0), NoStart(0)), (Try(0, 0), NoStart(0))],
    },
];

#[test]
fn past_the_end_of_a_bit_sheet(rt: HostRuntime) -> Result<(), Fail> {
    for case in &PAST_64 {
        case.check(&rt, rt.alloc(), &mut BitSheet::new(rt.alloc(), 1, 16)?)?;
    }
    Ok(())
}

/// Want of room is told before want of a start: one more booking fits, and two or three are needed.
#[test]
fn room_before_start(rt: HostRuntime) -> Result<(), Fail> {
    let case = Refusals {
        name: "room before start",
        setting: &LINE,
        state: UNTIL_60,
        refused: &[(Place(1, 1), NoRoom(2)), (Place(1, 2), NoRoom(3))],
    };
    case.check(&rt, rt.alloc(), &mut BitSheet::new(rt.alloc(), 1, 2)?)
}

/// 64 ticks before the horizon of a roll.
const LATE: Tick = 2_000_000_000 - 64;

const PAST_THE_ROLL: [Refusals; 2] = [
    Refusals {
        name: "link",
        setting: &LINE,
        state: State {
            tasks: &[(0, 0, LATE + 56)],
            transfers: &[],
            steps: &[0],
            bookings: &[(0, LATE + 56, 4)],
        },
        refused: &[(Place(1, 1), NoStart(16)), (Place(1, 2), NoStart(16))],
    },
    Refusals {
        name: "machine",
        setting: &LINE,
        state: State {
            tasks: &[(0, 0, LATE + 53)],
            transfers: &[],
            steps: &[0],
            bookings: &[(0, LATE + 53, 4)],
        },
        refused: &[(Place(1, 1), NoStart(1)), (Place(1, 2), NoStart(2))],
    },
];

#[test]
fn past_the_end_of_a_roll(rt: HostRuntime) -> Result<(), Fail> {
    for case in &PAST_THE_ROLL {
        case.check(&rt, rt.alloc(), &mut Roll::new(rt.alloc(), 16)?)?;
    }
    Ok(())
}

const UP_TO_64: [Continued; 2] = [
    // Each link is taken from 56 to 61, and the task ends at 64.
    Continued {
        name: "the last tick",
        setting: &LINE,
        state: State {
            tasks: &[(0, 0, 52)],
            transfers: &[],
            steps: &[0],
            bookings: &[(0, 52, 4)],
        },
        told: &[(Place(1, 2), Finish(64))],
        left: State {
            tasks: &[(0, 0, 52), (1, 2, 61)],
            transfers: &[(0, &[56, 56])],
            steps: &[0, 1],
            bookings: &[(0, 52, 4), (16, 56, 5), (17, 56, 5), (2, 61, 3)],
        },
    },
    Continued {
        name: "a task of all ticks",
        setting: &LONG_TASKS,
        state: BLANK,
        told: &[
            (Place(1, 0), Finish(64)),
            (Place(0, 0), Refused(NoStart(0))),
        ],
        left: State {
            tasks: &[(1, 0, 0)],
            transfers: &[],
            steps: &[1],
            bookings: &[(0, 0, 64)],
        },
    },
];

#[test]
fn up_to_the_end(rt: HostRuntime) -> Result<(), Fail> {
    for case in &UP_TO_64 {
        case.check(&rt, rt.alloc(), &mut BitSheet::new(rt.alloc(), 1, 16)?)?;
    }
    Ok(())
}

/// Five bookings fit, and five are needed: edge 0 takes both links from 6 to 12, edge 1 is sought from 4 on for 5 ticks
/// and takes both from 12 to 17. Then the table is full.
#[test]
fn up_to_the_room(rt: HostRuntime) -> Result<(), Fail> {
    let case = Continued {
        name: "just room",
        setting: &SPARSE,
        state: FEEDERS_TOGETHER,
        told: &[
            (Place(2, 2), Finish(20)),
            (Place(4, 3), Refused(NoRoom(1))),
            (TakeBack, Task(2)),
            (Place(4, 3), Finish(2)),
        ],
        left: State {
            tasks: &[(0, 0, 0), (1, 0, 4), (4, 3, 0)],
            transfers: &[],
            steps: &[0, 1, 4],
            bookings: &[(0, 0, 4), (0, 4, 2), (3, 0, 2)],
        },
    };
    case.check(&rt, rt.alloc(), &mut Roll::new(rt.alloc(), 7)?)?;
    case.check(&rt, rt.alloc(), &mut BitSheet::new(rt.alloc(), 1, 7)?)
}
