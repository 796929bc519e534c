//! Lists of calls, from a new sheet and going on from where another list ended.
use crate::ask::Ask::{Fill, Keep, Place, Strike, TakeBack, Try};
use crate::ask::unanswered;
use crate::case::{Drawn, check_drawn};
use crate::fixture::Fixture;
use crate::setting::WORKED;
use crate::state::{BLANK, State};
use certificate::Answer::{Finish, Kept, Length, NotAllowed, Refused, Task};
use model::Refusal::{
    AlreadyPlaced, NoSuchTask, NotAMachine, NotInOrder, NothingToTakeBack, PredecessorUnplaced,
};
use std::test::Fail;
use timetable::Roll;

/// Task 0 on machine 0.
const ONE_STEP: State = State {
    tasks: &[(0, 0, 0)],
    transfers: &[],
    steps: &[0],
    bookings: &[(0, 0, 4)],
};

const LISTS: [Drawn; 3] = [
    Drawn {
        name: "no calls",
        setting: &WORKED,
        told: &[],
        left: BLANK,
    },
    Drawn {
        name: "nothing is done",
        setting: &WORKED,
        told: &[
            (Keep, NotAllowed),
            (TakeBack, Refused(NothingToTakeBack)),
            (Strike, NotAllowed),
            (Place(1, 0), Refused(PredecessorUnplaced(0))),
            (Keep, NotAllowed),
        ],
        left: BLANK,
    },
    // Link 0 is taken from 4 to 8 by edge 0 and from 8 to 14 by edge 1; on link 1 edge 1 goes from 14 - 3 = 11 to 14.
    // What is taken back leaves its room: with task 2 first, edge 1 goes from 4 to 10 and edge 0 from 10 to 14.
    Drawn {
        name: "the worked plan, back and the other way round",
        setting: &WORKED,
        told: &[
            (Place(0, 0), Finish(4)),
            (Place(1, 1), Finish(11)),
            (Place(2, 2), Finish(17)),
            (TakeBack, Task(2)),
            (TakeBack, Task(1)),
            (Place(2, 1), Finish(12)),
            (Place(1, 1), Finish(17)),
        ],
        left: State {
            tasks: &[(0, 0, 0), (1, 1, 14), (2, 1, 10)],
            transfers: &[(0, &[10]), (1, &[4])],
            steps: &[0, 2, 1],
            bookings: &[(0, 0, 4), (16, 4, 6), (1, 10, 2), (16, 10, 4), (1, 14, 3)],
        },
    },
];

#[test]
fn lists_of_calls(rt: HostRuntime) -> Result<(), Fail> {
    check_drawn(&rt, rt.alloc(), &LISTS)
}

const TRIALS: [Drawn; 4] = [
    // Only keep and strike are allowed during a trial, and only then.
    Drawn {
        name: "not allowed",
        setting: &WORKED,
        told: &[
            (Try(0, 0), Finish(4)),
            (Place(1, 1), NotAllowed),
            (Try(1, 1), NotAllowed),
            (TakeBack, NotAllowed),
            (Fill, NotAllowed),
            (Place(9, 9), NotAllowed),
            (Keep, Kept),
            (Keep, NotAllowed),
            (Strike, NotAllowed),
        ],
        left: ONE_STEP,
    },
    // Task 2 on machine 2 is struck, and kept on machine 0, from 4 to 7. What was kept is taken back as any step;
    // then fill puts all on machine 1.
    Drawn {
        name: "keep and strike",
        setting: &WORKED,
        told: &[
            (Try(0, 0), Finish(4)),
            (Keep, Kept),
            (Place(1, 1), Finish(11)),
            (Try(2, 2), Finish(17)),
            (Strike, Task(2)),
            (Try(2, 0), Finish(7)),
            (Keep, Kept),
            (TakeBack, Task(2)),
            (TakeBack, Task(1)),
            (TakeBack, Task(0)),
            (TakeBack, Refused(NothingToTakeBack)),
            (Fill, Length(7)),
            (Try(0, 0), Refused(AlreadyPlaced(0))),
            (Keep, NotAllowed),
        ],
        left: State {
            tasks: &[(0, 1, 0), (1, 1, 2), (2, 1, 5)],
            transfers: &[],
            steps: &[0, 1, 2],
            bookings: &[(1, 0, 2), (1, 2, 3), (1, 5, 2)],
        },
    },
    // A refused try leaves the sheet as it was, which is drawn on.
    Drawn {
        name: "refused tries",
        setting: &WORKED,
        told: &[
            (Try(1, 0), Refused(PredecessorUnplaced(0))),
            (Strike, NotAllowed),
            (Try(3, 0), Refused(NoSuchTask(3))),
            (Place(0, 0), Finish(4)),
            (Try(1, 3), Refused(NotAMachine(3))),
            (Try(0, 2), Refused(AlreadyPlaced(0))),
            (Try(1, 1), Finish(11)),
            (Strike, Task(1)),
            (Strike, NotAllowed),
        ],
        left: ONE_STEP,
    },
    // A try does what a place does, and stands although the list ends before it is kept.
    Drawn {
        name: "still on trial",
        setting: &WORKED,
        told: &[(Place(0, 0), Finish(4)), (Try(1, 1), Finish(11))],
        left: State {
            tasks: &[(0, 0, 0), (1, 1, 8)],
            transfers: &[(0, &[4])],
            steps: &[0, 1],
            bookings: &[(0, 0, 4), (16, 4, 4), (1, 8, 3)],
        },
    },
];

#[test]
fn lists_with_trials(rt: HostRuntime) -> Result<(), Fail> {
    check_drawn(&rt, rt.alloc(), &TRIALS)
}

/// Nothing is drawn in a timetable that has bookings, and neither plan nor calls are written to.
#[test]
fn a_timetable_with_bookings(rt: HostRuntime) -> Result<(), Fail> {
    let heap = rt.alloc();
    let mut table = Roll::new(heap, 8)?;
    let mut fixture = Fixture::with(heap, &WORKED, &ONE_STEP, &mut table)?;
    let mut asked = unanswered(heap, &[(Fill, NotAllowed)])?;
    let drawn = fixture.draw(&mut table, &mut asked);
    assert_eq!(rt; drawn.map(|sheet| sheet.keep()).err(), Some(NotInOrder));
    let is_left = ONE_STEP.is_held(&fixture.plan, &table);
    assert!(rt; is_left && asked.iter().all(|asked| asked.answer.is_none()));
    Ok(())
}
