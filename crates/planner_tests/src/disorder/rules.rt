//! Rules A, B and C. The sheet belongs to each plan.
use super::{Disorder, TWO_STEPS, check_disorder};
use crate::setting::{Setting, WORKED};
use crate::state::State;
use std::test::Fail;

/// Two machines with nothing between them; task 0 feeds task 1.
const NO_LINK: Setting = Setting {
    speeds: &[1, 1],
    links: &[],
    works: &[1, 1],
    edges: &[(0, 1, 1)],
};

/// A machine and a switch.
const SWITCH: Setting = Setting {
    speeds: &[1, 0],
    works: &[1],
    edges: &[],
    ..NO_LINK
};

const RULE_A: [Disorder; 4] = [
    // A task that the job does not have takes no ticks, and neither does one that is on no machine:
    // such a booking stands in no timetable.
    Disorder {
        name: "an unknown task",
        setting: &WORKED,
        count: 3,
        state: State {
            tasks: &[(0, 0, 0), (1, 1, 8), (3, 0, 20)],
            steps: &[0, 1, 3],
            ..TWO_STEPS
        },
        belongs: true,
    },
    Disorder {
        name: "a task on a switch",
        setting: &SWITCH,
        count: 1,
        state: State {
            tasks: &[(0, 1, 0)],
            transfers: &[],
            steps: &[0],
            bookings: &[],
        },
        belongs: true,
    },
    Disorder {
        name: "the first unknown edge",
        setting: &WORKED,
        count: 2,
        state: State {
            transfers: &[(0, &[4]), (2, &[0])],
            ..TWO_STEPS
        },
        belongs: true,
    },
    Disorder {
        name: "the last unknown edge",
        setting: &WORKED,
        count: 2,
        state: State {
            transfers: &[(0, &[4]), (223, &[0])],
            ..TWO_STEPS
        },
        belongs: true,
    },
];

const RULE_B: Disorder = Disorder {
    name: "a predecessor that is not placed",
    setting: &WORKED,
    count: 1,
    state: State {
        tasks: &[(1, 1, 8)],
        transfers: &[],
        steps: &[1],
        bookings: &[(1, 8, 3)],
    },
    belongs: true,
};

const RULE_C: [Disorder; 5] = [
    Disorder {
        name: "no route",
        setting: &NO_LINK,
        count: 2,
        state: State {
            tasks: &[(0, 0, 0), (1, 1, 5)],
            transfers: &[],
            steps: &[0, 1],
            bookings: &[(0, 0, 1), (1, 5, 1)],
        },
        belongs: true,
    },
    Disorder {
        name: "no start",
        setting: &WORKED,
        count: 2,
        state: State {
            transfers: &[],
            bookings: &[(0, 0, 4), (1, 8, 3)],
            ..TWO_STEPS
        },
        belongs: true,
    },
    Disorder {
        name: "a start too many",
        setting: &WORKED,
        count: 2,
        state: State {
            transfers: &[(0, &[4, 8])],
            ..TWO_STEPS
        },
        belongs: true,
    },
    // Edge 1 has two hops from machine 0 to machine 2.
    Disorder {
        name: "a start too few",
        setting: &WORKED,
        count: 2,
        state: State {
            tasks: &[(0, 0, 0), (2, 2, 14)],
            transfers: &[(1, &[8])],
            steps: &[0, 2],
            bookings: &[(0, 0, 4), (16, 8, 6), (2, 14, 3)],
        },
        belongs: true,
    },
    Disorder {
        name: "a start on one machine",
        setting: &WORKED,
        count: 2,
        state: State {
            tasks: &[(0, 0, 0), (1, 0, 4)],
            transfers: &[(0, &[4])],
            steps: &[0, 1],
            bookings: &[(0, 0, 4), (0, 4, 6)],
        },
        belongs: true,
    },
];

#[test]
fn rules_that_are_broken(rt: HostRuntime) -> Result<(), Fail> {
    check_disorder(&rt, rt.alloc(), &RULE_A)?;
    check_disorder(&rt, rt.alloc(), &[RULE_B])?;
    check_disorder(&rt, rt.alloc(), &RULE_C)
}
