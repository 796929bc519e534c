//! Plans that fill completes.
use crate::ask::Ask::{Fill, Place, TakeBack};
use crate::case::{Drawn, check_drawn};
use crate::setting::{APART, Setting, WORKED};
use crate::state::{BLANK, State};
use certificate::Answer::{Finish, Length, Refused, Task};
use model::Refusal::EveryMachineRefuses;
use std::test::Fail;

mod order;

/// Machine 0 is as fast as machine 2, and machine 1 is slower.
const SLOW_MIDDLE: Setting = Setting {
    speeds: &[2, 1, 2],
    links: &[],
    works: &[4],
    edges: &[],
};

/// Machine 1 is as fast as machine 2, and station 0 is a switch.
const SWITCH_FIRST: Setting = Setting {
    speeds: &[0, 1, 1],
    ..SLOW_MIDDLE
};

/// Tasks 0 and 1 are joined by an edge, task 2 feeds nothing.
const PAIR: Setting = Setting {
    speeds: &[1, 1],
    links: &[(0, 1, 1)],
    works: &[4, 2, 3],
    edges: &[(0, 1, 3)],
};

const MACHINES: [Drawn; 6] = [
    // Task 0 takes 2 ticks on machine 1 and 4 on the others; there task 1 ends at 5 and task 2 at 7.
    Drawn {
        name: "the fast machine",
        setting: &WORKED,
        told: &[(Fill, Length(7))],
        left: State {
            tasks: &[(0, 1, 0), (1, 1, 2), (2, 1, 5)],
            transfers: &[],
            steps: &[0, 1, 2],
            bookings: &[(1, 0, 2), (1, 2, 3), (1, 5, 2)],
        },
    },
    Drawn {
        name: "the lowest among equals",
        setting: &SLOW_MIDDLE,
        told: &[(Fill, Length(2))],
        left: State {
            tasks: &[(0, 0, 0)],
            transfers: &[],
            steps: &[0],
            bookings: &[(0, 0, 2)],
        },
    },
    Drawn {
        name: "no switch",
        setting: &SWITCH_FIRST,
        told: &[(Fill, Length(4))],
        left: State {
            tasks: &[(0, 1, 0)],
            transfers: &[],
            steps: &[0],
            bookings: &[(1, 0, 4)],
        },
    },
    // Task 0 stands. Task 1 ends at 10 on machine 0, at 8 + 3 on machine 1 and at 8 + 6 on machine 2. Then task 2 ends at
    // 10 + 3 on machine 0, at 10 + 2 on machine 1, with its file from 4 to 10, and at 10 + 3 on machine 2.
    Drawn {
        name: "with a file",
        setting: &WORKED,
        told: &[(Place(0, 0), Finish(4)), (Fill, Length(12))],
        left: State {
            tasks: &[(0, 0, 0), (1, 0, 4), (2, 1, 10)],
            transfers: &[(1, &[4])],
            steps: &[0, 1, 2],
            bookings: &[(0, 0, 4), (0, 4, 6), (16, 4, 6), (1, 10, 2)],
        },
    },
    // Tasks 0 and 1 stand. Task 2 ends at 7 on machine 0, at 14 + 2 on machine 1 and at 14 + 3 on machine 2.
    // The length is the finish of task 1.
    Drawn {
        name: "the last one",
        setting: &WORKED,
        told: &[
            (Place(0, 0), Finish(4)),
            (Place(1, 1), Finish(11)),
            (Fill, Length(11)),
            (Fill, Length(11)),
            (TakeBack, Task(2)),
            (Fill, Length(11)),
        ],
        left: State {
            tasks: &[(0, 0, 0), (1, 1, 8), (2, 0, 4)],
            transfers: &[(0, &[4])],
            steps: &[0, 1, 2],
            bookings: &[(0, 0, 4), (16, 4, 4), (1, 8, 3), (0, 4, 3)],
        },
    },
    // The file is on the link from 4 to 7. Task 2 ends at 7 on machine 0, and at 3 in the gap of machine 1.
    Drawn {
        name: "a gap",
        setting: &PAIR,
        told: &[
            (Place(0, 0), Finish(4)),
            (Place(1, 1), Finish(9)),
            (Fill, Length(9)),
        ],
        left: State {
            tasks: &[(0, 0, 0), (1, 1, 7), (2, 1, 0)],
            transfers: &[(0, &[4])],
            steps: &[0, 1, 2],
            bookings: &[(0, 0, 4), (16, 4, 3), (1, 7, 2), (1, 0, 3)],
        },
    },
];

#[test]
fn the_machine_where_it_finishes_first(rt: HostRuntime) -> Result<(), Fail> {
    check_drawn(&rt, rt.alloc(), &MACHINES)
}

/// Two machines with nothing between them; tasks 0 and 1 feed task 2.
const NO_LINK: Setting = Setting {
    speeds: &[1, 1],
    links: &[],
    works: &[1, 1, 1],
    edges: &[(0, 2, 1), (1, 2, 1)],
};

/// On machine 0 edge 1 has no route, on machine 1 edge 0 has none; with both tasks on machine 0 none is needed.
#[test]
fn a_task_that_no_machine_takes(rt: HostRuntime) -> Result<(), Fail> {
    let case = Drawn {
        name: "no machine",
        setting: &NO_LINK,
        told: &[
            (Place(0, 0), Finish(1)),
            (Place(1, 1), Finish(1)),
            (Fill, Refused(EveryMachineRefuses(2))),
            (TakeBack, Task(1)),
            (Place(1, 0), Finish(2)),
            (Fill, Length(3)),
        ],
        left: State {
            tasks: &[(0, 0, 0), (1, 0, 1), (2, 0, 2)],
            transfers: &[],
            steps: &[0, 1, 2],
            bookings: &[(0, 0, 1), (0, 1, 1), (0, 2, 1)],
        },
    };
    check_drawn(&rt, rt.alloc(), &[case])
}

/// Two bookings are too few: of the tasks 2, 0 and 1 the third has no room, and the two before it are not placed either.
#[test]
fn room_for_all(rt: HostRuntime) -> Result<(), Fail> {
    let case = Drawn {
        name: "two bookings",
        setting: &APART,
        told: &[(Fill, Refused(EveryMachineRefuses(1)))],
        left: BLANK,
    };
    case.check_on_roll(&rt, rt.alloc(), 2)?;
    case.check_on_bits(&rt, rt.alloc(), 2)?;
    let case = Drawn {
        name: "three bookings",
        setting: &APART,
        told: &[(Fill, Length(6))],
        left: State {
            tasks: &[(0, 1, 0), (1, 1, 3), (2, 0, 0)],
            transfers: &[],
            steps: &[2, 0, 1],
            bookings: &[(0, 0, 5), (1, 0, 3), (1, 3, 3)],
        },
    };
    case.check_on_roll(&rt, rt.alloc(), 3)?;
    case.check_on_bits(&rt, rt.alloc(), 3)
}

/// Task 2 takes machine 0 up to 40, task 1 takes machine 1 up to 35. Task 0 would end at 65 on machine 1.
const ONE_TICK_TOO_FEW: Setting = Setting {
    works: &[30, 35, 40],
    ..APART
};

#[test]
fn past_the_end_of_a_bit_sheet(rt: HostRuntime) -> Result<(), Fail> {
    let case = Drawn {
        name: "65 ticks of 64",
        setting: &ONE_TICK_TOO_FEW,
        told: &[(Fill, Refused(EveryMachineRefuses(0)))],
        left: BLANK,
    };
    case.check_on_bits(&rt, rt.alloc(), 16)?;
    let case = Drawn {
        name: "65 ticks of a roll",
        setting: &ONE_TICK_TOO_FEW,
        told: &[(Fill, Length(65))],
        left: State {
            tasks: &[(0, 1, 35), (1, 1, 0), (2, 0, 0)],
            transfers: &[],
            steps: &[2, 1, 0],
            bookings: &[(0, 0, 40), (1, 0, 35), (1, 35, 30)],
        },
    };
    case.check_on_roll(&rt, rt.alloc(), 16)
}
