//! States that are in order although no list of calls leads to them.
use crate::ask::Ask::{Fill, Place, TakeBack};
use crate::case::Continued;
use crate::setting::WORKED;
use crate::state::State;
use certificate::Answer::{Finish, Refused, Task};
use model::Refusal::NotInOrder;
use std::test::Fail;
use timetable::{BitSheet, Roll};

const IN_ORDER: [Continued; 3] = [
    // The file leaves before task 0 ends, and task 1 starts before the file is there: rules D to I are not tested.
    // Then task 2 goes behind task 0, from 4 to 7.
    Continued {
        name: "starts that break the rules",
        setting: &WORKED,
        state: State {
            tasks: &[(0, 0, 0), (1, 1, 5)],
            transfers: &[(0, &[2])],
            steps: &[0, 1],
            bookings: &[(0, 0, 4), (16, 2, 4), (1, 5, 3)],
        },
        told: &[(Place(2, 0), Finish(7))],
        left: State {
            tasks: &[(0, 0, 0), (1, 1, 5), (2, 0, 4)],
            transfers: &[(0, &[2])],
            steps: &[0, 1, 2],
            bookings: &[(0, 0, 4), (16, 2, 4), (1, 5, 3), (0, 4, 3)],
        },
    },
    // The steps need not follow the edges. Without task 0 rules B and C are broken.
    Continued {
        name: "steps against the edges",
        setting: &WORKED,
        state: State {
            tasks: &[(0, 0, 0), (1, 1, 8)],
            transfers: &[(0, &[4])],
            steps: &[1, 0],
            bookings: &[(16, 4, 4), (1, 8, 3), (0, 0, 4)],
        },
        told: &[
            (TakeBack, Task(0)),
            (TakeBack, Refused(NotInOrder)),
            (Place(0, 0), Refused(NotInOrder)),
            (Fill, Refused(NotInOrder)),
        ],
        left: State {
            tasks: &[(1, 1, 8)],
            transfers: &[(0, &[4])],
            steps: &[1],
            bookings: &[(16, 4, 4), (1, 8, 3)],
        },
    },
    // The file is on link 0 from 10 to 16 and on link 1 from 17 to 20; both are taken back with the task.
    Continued {
        name: "a step with two links",
        setting: &WORKED,
        state: State {
            tasks: &[(0, 0, 5), (2, 2, 30)],
            transfers: &[(1, &[10, 17])],
            steps: &[0, 2],
            bookings: &[(0, 5, 4), (16, 10, 6), (17, 17, 3), (2, 30, 3)],
        },
        told: &[(TakeBack, Task(2))],
        left: State {
            tasks: &[(0, 0, 5)],
            transfers: &[],
            steps: &[0],
            bookings: &[(0, 5, 4)],
        },
    },
];

#[test]
fn states_in_order(rt: HostRuntime) -> Result<(), Fail> {
    for case in &IN_ORDER {
        case.check(&rt, rt.alloc(), &mut Roll::new(rt.alloc(), 16)?)?;
        case.check(&rt, rt.alloc(), &mut BitSheet::new(rt.alloc(), 1, 16)?)?;
    }
    Ok(())
}
