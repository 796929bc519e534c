//! Where tasks and transfers are booked.
use crate::ask::Ask::Place;
use crate::case::{Drawn, check_drawn};
use crate::setting::{APART, Setting};
use crate::state::State;
use certificate::Answer::Finish;
use std::test::Fail;

/// Two machines of speed 1, joined by a link of speed 1, so that each length is the work or the volume.
const JOINED: Setting = Setting {
    speeds: &[1, 1],
    links: &[(0, 1, 1)],
    works: &[4, 2, 3, 4, 1, 5],
    edges: &[(0, 1, 3)],
};

/// The same machines. Tasks 0 and 1 send four files.
const SENDERS: Setting = Setting {
    works: &[2, 10, 1, 1, 1, 1],
    edges: &[(0, 2, 3), (1, 3, 4), (0, 4, 5), (0, 5, 3)],
    ..JOINED
};

const GAPS: [Drawn; 3] = [
    // Each machine is free from 0, so what has no predecessor starts at 0 or where the last task ends.
    Drawn {
        name: "no predecessors",
        setting: &APART,
        told: &[
            (Place(2, 1), Finish(5)),
            (Place(0, 0), Finish(3)),
            (Place(1, 0), Finish(6)),
        ],
        left: State {
            tasks: &[(0, 0, 0), (1, 0, 3), (2, 1, 0)],
            transfers: &[],
            steps: &[2, 0, 1],
            bookings: &[(1, 0, 5), (0, 0, 3), (0, 3, 3)],
        },
    },
    // The file comes at 7, so machine 1 is taken from 7 to 9, and free from 0 to 7. Task 2 takes 3 of these 7 ticks,
    // the 5 of task 5 are too many for what is left, and the 4 of task 3 fill it. Task 4 finds nothing free before 14.
    Drawn {
        name: "gap on a machine",
        setting: &JOINED,
        told: &[
            (Place(0, 0), Finish(4)),
            (Place(1, 1), Finish(9)),
            (Place(2, 1), Finish(3)),
            (Place(5, 1), Finish(14)),
            (Place(3, 1), Finish(7)),
            (Place(4, 1), Finish(15)),
        ],
        left: State {
            tasks: &[
                (0, 0, 0),
                (1, 1, 7),
                (2, 1, 0),
                (3, 1, 3),
                (4, 1, 14),
                (5, 1, 9),
            ],
            transfers: &[(0, &[4])],
            steps: &[0, 1, 2, 5, 3, 4],
            bookings: &[
                (0, 0, 4),
                (16, 4, 3),
                (1, 7, 2),
                (1, 0, 3),
                (1, 9, 5),
                (1, 3, 4),
                (1, 14, 1),
            ],
        },
    },
    // The link is taken from 2 to 5 and from 12 to 16. Of the 7 ticks between, edge 2 takes 5, from 5 to 10;
    // the 3 of edge 3 are too many for the last 2, so it goes from 16 to 19.
    Drawn {
        name: "gap on a link",
        setting: &SENDERS,
        told: &[
            (Place(0, 0), Finish(2)),
            (Place(1, 0), Finish(12)),
            (Place(2, 1), Finish(6)),
            (Place(3, 1), Finish(17)),
            (Place(4, 1), Finish(11)),
            (Place(5, 1), Finish(20)),
        ],
        left: State {
            tasks: &[
                (0, 0, 0),
                (1, 0, 2),
                (2, 1, 5),
                (3, 1, 16),
                (4, 1, 10),
                (5, 1, 19),
            ],
            transfers: &[(0, &[2]), (1, &[12]), (2, &[5]), (3, &[16])],
            steps: &[0, 1, 2, 3, 4, 5],
            bookings: &[
                (0, 0, 2),
                (0, 2, 10),
                (16, 2, 3),
                (1, 5, 1),
                (16, 12, 4),
                (1, 16, 1),
                (16, 5, 5),
                (1, 10, 1),
                (16, 16, 3),
                (1, 19, 1),
            ],
        },
    },
];

#[test]
fn gaps(rt: HostRuntime) -> Result<(), Fail> {
    check_drawn(&rt, rt.alloc(), &GAPS)
}
