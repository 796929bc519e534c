//! In which order fill takes the tasks: by falling bottom level, the lowest number first among equals.
use crate::ask::Ask::Fill;
use crate::case::{Drawn, check_drawn};
use crate::setting::{APART, Setting};
use crate::state::State;
use certificate::Answer::Length;
use std::test::Fail;

/// Three equal tasks on two equal machines.
const EQUAL: Setting = Setting {
    works: &[2, 2, 2],
    ..APART
};

/// Two pairs; the bottom levels are 1 + 5 + 1 = 7, 1 + 6 + 1 = 8, 1 and 1.
const PAIRS: Setting = Setting {
    works: &[1, 1, 1, 1],
    edges: &[(0, 2, 5), (1, 3, 6)],
    ..APART
};

/// Two tasks of 40 ticks, and one that is as long as what is left of 64.
const LAST_TICK: Setting = Setting {
    works: &[24, 40, 40],
    ..APART
};

const ON_TWO_MACHINES: [Drawn; 4] = [
    // Bottom levels 3, 3, 5. Task 2 ends at 5 on both, so it takes machine 0; the others end at 3 and 6 on machine 1.
    Drawn {
        name: "the longest first",
        setting: &APART,
        told: &[(Fill, Length(6))],
        left: State {
            tasks: &[(0, 1, 0), (1, 1, 3), (2, 0, 0)],
            transfers: &[],
            steps: &[2, 0, 1],
            bookings: &[(0, 0, 5), (1, 0, 3), (1, 3, 3)],
        },
    },
    // Task 0 ends at 2 on both machines, task 1 at 2 on machine 1, task 2 at 4 on both.
    Drawn {
        name: "equal tasks",
        setting: &EQUAL,
        told: &[(Fill, Length(4))],
        left: State {
            tasks: &[(0, 0, 0), (1, 1, 0), (2, 0, 2)],
            transfers: &[],
            steps: &[0, 1, 2],
            bookings: &[(0, 0, 2), (1, 0, 2), (0, 2, 2)],
        },
    },
    // Task 1, on machine 0; task 0, on machine 1; then tasks 2 and 3, each on the only machine to which its file goes.
    Drawn {
        name: "volumes count",
        setting: &PAIRS,
        told: &[(Fill, Length(2))],
        left: State {
            tasks: &[(0, 1, 0), (1, 0, 0), (2, 1, 1), (3, 0, 1)],
            transfers: &[],
            steps: &[1, 0, 2, 3],
            bookings: &[(0, 0, 1), (1, 0, 1), (1, 1, 1), (0, 1, 1)],
        },
    },
    // The last tick of a bit sheet. Tasks 1 and 2 go first, to 40 on a machine each; task 0 ends at 64 on both.
    Drawn {
        name: "up to the end",
        setting: &LAST_TICK,
        told: &[(Fill, Length(64))],
        left: State {
            tasks: &[(0, 0, 40), (1, 0, 0), (2, 1, 0)],
            transfers: &[],
            steps: &[1, 2, 0],
            bookings: &[(0, 0, 40), (1, 0, 40), (0, 40, 24)],
        },
    },
];

#[test]
fn on_two_machines(rt: HostRuntime) -> Result<(), Fail> {
    check_drawn(&rt, rt.alloc(), &ON_TWO_MACHINES)
}

/// One machine. The bottom level of task 0 is 1 + 10 + 1 = 12, that of task 1 is 1, and that of task 2 its work.
const BELOW: Setting = Setting {
    speeds: &[1],
    links: &[],
    works: &[1, 1, 11],
    edges: &[(0, 1, 10)],
};

const EVEN: Setting = Setting {
    works: &[1, 1, 12],
    ..BELOW
};

const ABOVE: Setting = Setting {
    works: &[1, 1, 13],
    ..BELOW
};

/// The greatest of volume plus bottom level: 2 + 9 = 11 over edge 0 and 7 + 5 = 12 over edge 1, so 13 for task 0.
const GREATEST: Setting = Setting {
    works: &[1, 9, 5, 13],
    edges: &[(0, 1, 2), (0, 2, 7)],
    ..BELOW
};

const ON_ONE_MACHINE: [Drawn; 4] = [
    Drawn {
        name: "a level below",
        setting: &BELOW,
        told: &[(Fill, Length(13))],
        left: State {
            tasks: &[(0, 0, 0), (1, 0, 12), (2, 0, 1)],
            transfers: &[],
            steps: &[0, 2, 1],
            bookings: &[(0, 0, 1), (0, 1, 11), (0, 12, 1)],
        },
    },
    Drawn {
        name: "an equal level",
        setting: &EVEN,
        told: &[(Fill, Length(14))],
        left: State {
            tasks: &[(0, 0, 0), (1, 0, 13), (2, 0, 1)],
            transfers: &[],
            steps: &[0, 2, 1],
            bookings: &[(0, 0, 1), (0, 1, 12), (0, 13, 1)],
        },
    },
    Drawn {
        name: "a level above",
        setting: &ABOVE,
        told: &[(Fill, Length(15))],
        left: State {
            tasks: &[(0, 0, 13), (1, 0, 14), (2, 0, 0)],
            transfers: &[],
            steps: &[2, 0, 1],
            bookings: &[(0, 0, 13), (0, 13, 1), (0, 14, 1)],
        },
    },
    // Bottom levels 13, 9, 5 and 13.
    Drawn {
        name: "the greatest over the edges",
        setting: &GREATEST,
        told: &[(Fill, Length(28))],
        left: State {
            tasks: &[(0, 0, 0), (1, 0, 14), (2, 0, 23), (3, 0, 1)],
            transfers: &[],
            steps: &[0, 3, 1, 2],
            bookings: &[(0, 0, 1), (0, 1, 13), (0, 14, 9), (0, 23, 5)],
        },
    },
];

#[test]
fn on_one_machine(rt: HostRuntime) -> Result<(), Fail> {
    check_drawn(&rt, rt.alloc(), &ON_ONE_MACHINE)
}
