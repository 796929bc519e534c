//! Networks in which several ways are equally good.
use super::{Shape, Way};
use routes::{HopCount, Slowness};
use std::test::Fail;

/// A ring of four stations whose links are all of one speed.
#[test]
fn even_ring(rt: HostRuntime) -> Result<(), Fail> {
    let ring = Shape {
        switches: 0,
        machines: 4,
        links: &[
            (&[0, 1], 1000),
            (&[1, 2], 1000),
            (&[2, 3], 1000),
            (&[3, 0], 1000),
        ],
    };
    // Both ways round to the opposite station are equally long: of the two neighbours the lower is settled first.
    let ways: [Way; 5] = [
        (0, 2, Some(&[(0, 1), (1, 2)])),
        (2, 0, Some(&[(1, 1), (0, 0)])),
        (1, 3, Some(&[(0, 0), (3, 3)])),
        (3, 1, Some(&[(3, 0), (0, 1)])),
        (0, 3, Some(&[(3, 3)])),
    ];
    ring.check::<HopCount>(&rt, rt.alloc(), &ways)?;
    ring.check::<Slowness>(&rt, rt.alloc(), &ways)
}

/// Four links between two stations, with a slowness of 2000, 1002 (1001 and a part, rounded up), 1000 and 1000.
#[test]
fn side_by_side(rt: HostRuntime) -> Result<(), Fail> {
    let pair = Shape {
        switches: 0,
        machines: 2,
        links: &[
            (&[0, 1], 500),
            (&[0, 1], 999),
            (&[0, 1], 1000),
            (&[0, 1], 1000),
        ],
    };
    // Each link is one hop: the lowest is taken.
    let fewest: [Way; 2] = [(0, 1, Some(&[(0, 1)])), (1, 0, Some(&[(0, 0)]))];
    pair.check::<HopCount>(&rt, rt.alloc(), &fewest)?;
    // The links 2 and 3 are the fastest: the lower of them is taken.
    let fastest: [Way; 2] = [(0, 1, Some(&[(2, 1)])), (1, 0, Some(&[(2, 0)]))];
    pair.check::<Slowness>(&rt, rt.alloc(), &fastest)
}

/// A ring of four stations with two predecessors of each opposite station, by different links: link 0 and link 3 have a
/// slowness of 1000, and link 1 and link 2 one of 2000, so that both ways round have the slowness 3000.
#[test]
fn two_predecessors(rt: HostRuntime) -> Result<(), Fail> {
    let ring = Shape {
        switches: 0,
        machines: 4,
        links: &[
            (&[0, 3], 1000),
            (&[0, 1], 500),
            (&[2, 3], 500),
            (&[1, 2], 1000),
        ],
    };
    // Both predecessors are one hop away: the lower is settled first, and wins, also over a higher link (0 to 2, 2 to 0).
    let fewest: [Way; 4] = [
        (0, 2, Some(&[(1, 1), (3, 2)])),
        (2, 0, Some(&[(3, 1), (1, 0)])),
        (1, 3, Some(&[(1, 0), (0, 3)])),
        (3, 1, Some(&[(0, 0), (1, 1)])),
    ];
    ring.check::<HopCount>(&rt, rt.alloc(), &fewest)?;
    // The nearer predecessor is settled first, and wins, also where it has the higher number (3 from 0, and 2 from 1)
    // and leads on over the higher link (2 from 1).
    let fastest: [Way; 4] = [
        (0, 2, Some(&[(0, 3), (2, 2)])),
        (2, 0, Some(&[(3, 1), (1, 0)])),
        (1, 3, Some(&[(3, 2), (2, 3)])),
        (3, 1, Some(&[(0, 0), (1, 1)])),
    ];
    ring.check::<Slowness>(&rt, rt.alloc(), &fastest)
}

/// A link of speed 251 beside three in a row of the speeds 753, 753 and 754.
#[test]
fn rounded_up(rt: HostRuntime) -> Result<(), Fail> {
    let ring = Shape {
        switches: 0,
        machines: 4,
        links: &[
            (&[0, 1], 753),
            (&[1, 2], 753),
            (&[2, 3], 754),
            (&[0, 3], 251),
        ],
    };
    // 1329 + 1329 + 1327 = 3985 is what the link alone has. Each is rounded up: else the three would be the faster.
    // The source is settled before the other predecessor.
    let direct: [Way; 2] = [(0, 3, Some(&[(3, 3)])), (3, 0, Some(&[(3, 0)]))];
    ring.check::<HopCount>(&rt, rt.alloc(), &direct)?;
    ring.check::<Slowness>(&rt, rt.alloc(), &direct)
}
