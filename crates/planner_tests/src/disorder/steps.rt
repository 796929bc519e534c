//! What the sheet counts, and the steps.
use super::{Disorder, TWO_STEPS, check_disorder};
use crate::setting::WORKED;
use crate::state::{BLANK, State};
use std::test::Fail;

const COUNTS: [Disorder; 3] = [
    Disorder {
        name: "fewer steps counted",
        setting: &WORKED,
        count: 1,
        state: TWO_STEPS,
        belongs: false,
    },
    Disorder {
        name: "more steps counted",
        setting: &WORKED,
        count: 3,
        state: TWO_STEPS,
        belongs: false,
    },
    Disorder {
        name: "a blank plan",
        setting: &WORKED,
        count: 1,
        state: BLANK,
        belongs: false,
    },
];

const STEPS: [Disorder; 4] = [
    Disorder {
        name: "a step that is not placed",
        setting: &WORKED,
        count: 3,
        state: State {
            steps: &[0, 1, 2],
            ..TWO_STEPS
        },
        belongs: false,
    },
    // The bookings of task 1 cannot stand twice in a timetable, so that these are not the bookings step by step either.
    Disorder {
        name: "a step twice",
        setting: &WORKED,
        count: 3,
        state: State {
            steps: &[0, 1, 1],
            ..TWO_STEPS
        },
        belongs: false,
    },
    // On the machine of task 0, task 2 needs no transfer.
    Disorder {
        name: "a placed task that is no step",
        setting: &WORKED,
        count: 2,
        state: State {
            tasks: &[(0, 0, 0), (1, 1, 8), (2, 0, 4)],
            ..TWO_STEPS
        },
        belongs: false,
    },
    // Task 2 is not placed, so that rule C is broken too.
    Disorder {
        name: "the goal of a filled transfer is no step",
        setting: &WORKED,
        count: 2,
        state: State {
            transfers: &[(0, &[4]), (1, &[8, 11])],
            ..TWO_STEPS
        },
        belongs: false,
    },
];

#[test]
fn steps_that_are_not_the_placed_tasks(rt: HostRuntime) -> Result<(), Fail> {
    check_disorder(&rt, rt.alloc(), &COUNTS)?;
    check_disorder(&rt, rt.alloc(), &STEPS)
}
