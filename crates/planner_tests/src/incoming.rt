//! What a task waits for: the files of its incoming edges, and its predecessors on its own machine.
use crate::ask::Ask::Place;
use crate::case::{Drawn, check_drawn};
use crate::setting::Setting;
use crate::state::State;
use certificate::Answer::Finish;
use std::test::Fail;

/// Two machines of speed 1, joined by a link of speed 1. Edge 0 comes from the higher of task 2's predecessors.
const CROSSED: Setting = Setting {
    speeds: &[1, 1],
    links: &[(0, 1, 1)],
    works: &[1, 1, 1],
    edges: &[(1, 2, 4), (0, 2, 6)],
};

/// The same, with a file of edge 1 that fits before the one of edge 0.
const SHORT_SECOND: Setting = Setting {
    edges: &[(1, 2, 4), (0, 2, 1)],
    ..CROSSED
};

/// Edge 1 leads from a long task.
const LONG: Setting = Setting {
    works: &[1, 8, 3],
    edges: &[(0, 2, 4), (1, 2, 9)],
    ..CROSSED
};

/// Each task feeds the next.
const CHAINED: Setting = Setting {
    works: &[4, 2, 3],
    edges: &[(0, 1, 3), (1, 2, 7)],
    ..CROSSED
};

const INCOMING: [Drawn; 4] = [
    // Edge 0 goes first, from the finish of task 1: 2 to 6. Edge 1 is sought from 1 on, and goes from 6 to 12.
    // The other way round they would go from 1 to 7 and from 7 to 11.
    Drawn {
        name: "by rising edge number",
        setting: &CROSSED,
        told: &[
            (Place(0, 0), Finish(1)),
            (Place(1, 0), Finish(2)),
            (Place(2, 1), Finish(13)),
        ],
        left: State {
            tasks: &[(0, 0, 0), (1, 0, 1), (2, 1, 12)],
            transfers: &[(0, &[2]), (1, &[6])],
            steps: &[0, 1, 2],
            bookings: &[(0, 0, 1), (0, 1, 1), (16, 2, 4), (16, 6, 6), (1, 12, 1)],
        },
    },
    // Edge 1 goes from 1 to 2, before edge 0, which was booked first; the later of both decides.
    Drawn {
        name: "the latest file decides",
        setting: &SHORT_SECOND,
        told: &[
            (Place(0, 0), Finish(1)),
            (Place(1, 0), Finish(2)),
            (Place(2, 1), Finish(7)),
        ],
        left: State {
            tasks: &[(0, 0, 0), (1, 0, 1), (2, 1, 6)],
            transfers: &[(0, &[2]), (1, &[1])],
            steps: &[0, 1, 2],
            bookings: &[(0, 0, 1), (0, 1, 1), (16, 2, 4), (16, 1, 1), (1, 6, 1)],
        },
    },
    // The file is there at 5, the task on the same machine ends at 8. Its own file is not booked.
    Drawn {
        name: "the predecessor on the machine decides",
        setting: &LONG,
        told: &[
            (Place(0, 0), Finish(1)),
            (Place(1, 1), Finish(8)),
            (Place(2, 1), Finish(11)),
        ],
        left: State {
            tasks: &[(0, 0, 0), (1, 1, 0), (2, 1, 8)],
            transfers: &[(0, &[1])],
            steps: &[0, 1, 2],
            bookings: &[(0, 0, 1), (1, 0, 8), (16, 1, 4), (1, 8, 3)],
        },
    },
    // Machine 1 is free from 0 to 7, but task 2 waits for task 1.
    Drawn {
        name: "no gap before a predecessor",
        setting: &CHAINED,
        told: &[
            (Place(0, 0), Finish(4)),
            (Place(1, 1), Finish(9)),
            (Place(2, 1), Finish(12)),
        ],
        left: State {
            tasks: &[(0, 0, 0), (1, 1, 7), (2, 1, 9)],
            transfers: &[(0, &[4])],
            steps: &[0, 1, 2],
            bookings: &[(0, 0, 4), (16, 4, 3), (1, 7, 2), (1, 9, 3)],
        },
    },
];

#[test]
fn incoming_edges(rt: HostRuntime) -> Result<(), Fail> {
    check_drawn(&rt, rt.alloc(), &INCOMING)
}
