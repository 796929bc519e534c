//! Transfers over three links. A later hop is sought from the greater of the first start and the finish on the link before
//! less its own length.
use crate::ask::Ask::Place;
use crate::case::{Drawn, check_drawn};
use crate::setting::Setting;
use crate::state::State;
use certificate::Answer::Finish;
use std::test::Fail;

/// Four machines of speed 1 in a line. Volume 6 takes 6, 3 and 6 ticks on the three links, volume 3 takes 3, 2 and 3.
const FAST_MIDDLE: Setting = Setting {
    speeds: &[1, 1, 1, 1],
    links: &[(0, 1, 1), (1, 2, 2), (2, 3, 1)],
    works: &[5, 2, 1],
    edges: &[(0, 1, 6), (0, 2, 3)],
};

/// Volume 6 takes 3, 6 and 3 ticks.
const SLOW_MIDDLE: Setting = Setting {
    links: &[(0, 1, 2), (1, 2, 1), (2, 3, 2)],
    works: &[5, 2],
    edges: &[(0, 1, 6)],
    ..FAST_MIDDLE
};

/// The same links, and a task that ends early.
const EARLY: Setting = Setting {
    works: &[1, 2],
    ..SLOW_MIDDLE
};

/// Edge 0 takes the middle link alone, for 10 ticks. Volume 6 takes 6, 3 and 6 ticks.
const BUSY_MIDDLE: Setting = Setting {
    works: &[1, 5, 1, 2],
    edges: &[(0, 2, 20), (1, 3, 6)],
    ..FAST_MIDDLE
};

const THREE_LINKS: [Drawn; 4] = [
    // Edge 0: from 5 to 11; from 11 - 3 = 8 to 11; from 5, since 11 - 6 is 5 too, to 11.
    // Edge 1: from 11 to 14; from 14 - 2 = 12 to 14; from 14 - 3 = 11 to 14.
    Drawn {
        name: "a fast link in the middle",
        setting: &FAST_MIDDLE,
        told: &[
            (Place(0, 0), Finish(5)),
            (Place(1, 3), Finish(13)),
            (Place(2, 3), Finish(15)),
        ],
        left: State {
            tasks: &[(0, 0, 0), (1, 3, 11), (2, 3, 14)],
            transfers: &[(0, &[5, 8, 5]), (1, &[11, 12, 11])],
            steps: &[0, 1, 2],
            bookings: &[
                (0, 0, 5),
                (16, 5, 6),
                (17, 8, 3),
                (18, 5, 6),
                (3, 11, 2),
                (16, 11, 3),
                (17, 12, 2),
                (18, 11, 3),
                (3, 14, 1),
            ],
        },
    },
    // From 5 to 8; 8 - 6 = 2 is before the first start, so from 5 to 11; from 11 - 3 = 8 to 11.
    Drawn {
        name: "a slow link in the middle",
        setting: &SLOW_MIDDLE,
        told: &[(Place(0, 0), Finish(5)), (Place(1, 3), Finish(13))],
        left: State {
            tasks: &[(0, 0, 0), (1, 3, 11)],
            transfers: &[(0, &[5, 5, 8])],
            steps: &[0, 1],
            bookings: &[(0, 0, 5), (16, 5, 3), (17, 5, 6), (18, 8, 3), (3, 11, 2)],
        },
    },
    // From 1 to 4; 4 - 6 is below 0, so from 1 to 7; from 7 - 3 = 4 to 7.
    Drawn {
        name: "a length above the finish before",
        setting: &EARLY,
        told: &[(Place(0, 0), Finish(1)), (Place(1, 3), Finish(9))],
        left: State {
            tasks: &[(0, 0, 0), (1, 3, 7)],
            transfers: &[(0, &[1, 1, 4])],
            steps: &[0, 1],
            bookings: &[(0, 0, 1), (16, 1, 3), (17, 1, 6), (18, 4, 3), (3, 7, 2)],
        },
    },
    // Link 1 is taken from 1 to 11. Edge 1: from 5 to 11; not from 8, so from 11 to 14; from 14 - 6 = 8 to 14.
    Drawn {
        name: "a link that is taken",
        setting: &BUSY_MIDDLE,
        told: &[
            (Place(0, 1), Finish(1)),
            (Place(1, 0), Finish(5)),
            (Place(2, 2), Finish(12)),
            (Place(3, 3), Finish(16)),
        ],
        left: State {
            tasks: &[(0, 1, 0), (1, 0, 0), (2, 2, 11), (3, 3, 14)],
            transfers: &[(0, &[1]), (1, &[5, 11, 8])],
            steps: &[0, 1, 2, 3],
            bookings: &[
                (1, 0, 1),
                (0, 0, 5),
                (17, 1, 10),
                (2, 11, 1),
                (16, 5, 6),
                (17, 11, 3),
                (18, 8, 6),
                (3, 14, 2),
            ],
        },
    },
];

#[test]
fn three_links(rt: HostRuntime) -> Result<(), Fail> {
    check_drawn(&rt, rt.alloc(), &THREE_LINKS)
}
