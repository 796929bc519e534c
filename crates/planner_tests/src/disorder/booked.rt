//! Bookings that are not the plan's, step by step. The sheet belongs to each plan, and rules A, B and C hold.
use super::{Disorder, TWO_STEPS, check_disorder};
use crate::setting::WORKED;
use crate::state::State;
use std::test::Fail;

const VALUES: [Disorder; 3] = [
    Disorder {
        name: "another resource",
        setting: &WORKED,
        count: 2,
        state: State {
            bookings: &[(0, 0, 4), (17, 4, 4), (1, 8, 3)],
            ..TWO_STEPS
        },
        belongs: true,
    },
    Disorder {
        name: "another start",
        setting: &WORKED,
        count: 2,
        state: State {
            bookings: &[(0, 0, 4), (16, 4, 4), (1, 9, 3)],
            ..TWO_STEPS
        },
        belongs: true,
    },
    Disorder {
        name: "another length",
        setting: &WORKED,
        count: 2,
        state: State {
            bookings: &[(0, 0, 3), (16, 4, 4), (1, 8, 3)],
            ..TWO_STEPS
        },
        belongs: true,
    },
];

const LISTS: [Disorder; 5] = [
    Disorder {
        name: "none",
        setting: &WORKED,
        count: 2,
        state: State {
            bookings: &[],
            ..TWO_STEPS
        },
        belongs: true,
    },
    Disorder {
        name: "one fewer",
        setting: &WORKED,
        count: 2,
        state: State {
            bookings: &[(0, 0, 4), (16, 4, 4)],
            ..TWO_STEPS
        },
        belongs: true,
    },
    Disorder {
        name: "one more",
        setting: &WORKED,
        count: 2,
        state: State {
            bookings: &[(0, 0, 4), (16, 4, 4), (1, 8, 3), (2, 0, 1)],
            ..TWO_STEPS
        },
        belongs: true,
    },
    Disorder {
        name: "a task before its file",
        setting: &WORKED,
        count: 2,
        state: State {
            bookings: &[(0, 0, 4), (1, 8, 3), (16, 4, 4)],
            ..TWO_STEPS
        },
        belongs: true,
    },
    Disorder {
        name: "steps the other way round",
        setting: &WORKED,
        count: 2,
        state: State {
            steps: &[1, 0],
            ..TWO_STEPS
        },
        belongs: true,
    },
];

#[test]
fn bookings_that_are_not_those_of_the_plan(rt: HostRuntime) -> Result<(), Fail> {
    check_disorder(&rt, rt.alloc(), &VALUES)?;
    check_disorder(&rt, rt.alloc(), &LISTS)
}
