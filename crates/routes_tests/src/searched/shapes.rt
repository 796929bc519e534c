//! Networks in which the best way is the only one, or is better than each other.
use super::{Shape, Way};
use routes::{HopCount, Slowness};
use std::test::Fail;

/// Two switches below a third, number 0, and two machines below each of the two.
#[test]
fn tree(rt: HostRuntime) -> Result<(), Fail> {
    let tree = Shape {
        switches: 3,
        machines: 4,
        links: &[
            (&[0, 1], 1000),
            (&[0, 2], 500),
            (&[1, 3], 100),
            (&[1, 4], 50),
            (&[2, 5], 20),
            (&[2, 6], 10),
        ],
    };
    // The one way between two stations leads up to the lowest switch above both, and down.
    let ways: [Way; 6] = [
        (3, 6, Some(&[(2, 1), (0, 0), (1, 2), (5, 6)])),
        (6, 3, Some(&[(5, 2), (1, 0), (0, 1), (2, 3)])),
        (3, 4, Some(&[(2, 1), (3, 4)])),
        (0, 5, Some(&[(1, 2), (4, 5)])),
        (4, 0, Some(&[(3, 1), (0, 0)])),
        (5, 5, Some(&[])),
    ];
    tree.check::<HopCount>(&rt, rt.alloc(), &ways)?;
    tree.check::<Slowness>(&rt, rt.alloc(), &ways)
}

/// One link that joins 16 stations.
#[test]
fn bus(rt: HostRuntime) -> Result<(), Fail> {
    let bus = Shape {
        switches: 1,
        machines: 15,
        links: &[(&[0, 1, 2, 3, 4, 5, 6, 7, 8, 9, 10, 11, 12, 13, 14, 15], 7)],
    };
    // Each station is one hop from each other, and there is no station 16.
    let ways: [Way; 7] = [
        (0, 1, Some(&[(0, 1)])),
        (0, 15, Some(&[(0, 15)])),
        (15, 0, Some(&[(0, 0)])),
        (7, 8, Some(&[(0, 8)])),
        (15, 15, Some(&[])),
        (15, 16, None),
        (16, 15, None),
    ];
    bus.check::<HopCount>(&rt, rt.alloc(), &ways)?;
    bus.check::<Slowness>(&rt, rt.alloc(), &ways)
}

/// A ring of five stations whose link 0 has a slowness of 5000, and each other link one of 1000.
#[test]
fn uneven_ring(rt: HostRuntime) -> Result<(), Fail> {
    let ring = Shape {
        switches: 0,
        machines: 5,
        links: &[
            (&[0, 1], 200),
            (&[1, 2], 1000),
            (&[2, 3], 1000),
            (&[3, 4], 1000),
            (&[4, 0], 1000),
        ],
    };
    // One way round has at most two hops, the other at least three.
    let fewest: [Way; 4] = [
        (0, 1, Some(&[(0, 1)])),
        (0, 2, Some(&[(0, 1), (1, 2)])),
        (0, 3, Some(&[(4, 4), (3, 3)])),
        (1, 4, Some(&[(0, 0), (4, 4)])),
    ];
    ring.check::<HopCount>(&rt, rt.alloc(), &fewest)?;
    // All the links but link 0 are less slow together than it is alone.
    let fastest: [Way; 4] = [
        (0, 1, Some(&[(4, 4), (3, 3), (2, 2), (1, 1)])),
        (0, 2, Some(&[(4, 4), (3, 3), (2, 2)])),
        (0, 3, Some(&[(4, 4), (3, 3)])),
        (1, 4, Some(&[(1, 2), (2, 3), (3, 4)])),
    ];
    ring.check::<Slowness>(&rt, rt.alloc(), &fastest)
}

/// Three stations of which no link joins station 1.
#[test]
fn unreached(rt: HostRuntime) -> Result<(), Fail> {
    let apart = Shape {
        switches: 1,
        machines: 2,
        links: &[(&[2, 0], 1)],
    };
    // A station has the empty route to itself even so, and an unknown one has no route at all.
    let ways: [Way; 12] = [
        (0, 2, Some(&[(0, 2)])),
        (0, 1, None),
        (1, 0, None),
        (1, 2, None),
        (1, 1, Some(&[])),
        (3, 3, None),
        (0, 16, None),
        (16, 2, None),
        (99, 0, None),
        (0, usize::MAX, None),
        (usize::MAX, 0, None),
        (usize::MAX, usize::MAX, None),
    ];
    apart.check::<HopCount>(&rt, rt.alloc(), &ways)?;
    apart.check::<Slowness>(&rt, rt.alloc(), &ways)
}

/// A machine and no link.
#[test]
fn alone(rt: HostRuntime) -> Result<(), Fail> {
    let alone = Shape {
        switches: 0,
        machines: 1,
        links: &[],
    };
    // Only the empty route is there.
    let ways: [Way; 3] = [(0, 0, Some(&[])), (0, 1, None), (1, 0, None)];
    alone.check::<HopCount>(&rt, rt.alloc(), &ways)?;
    alone.check::<Slowness>(&rt, rt.alloc(), &ways)
}

/// Two groups of eight and seven stations; a link joins each group, and station 15 is in both.
#[test]
fn two_groups(rt: HostRuntime) -> Result<(), Fail> {
    let groups = Shape {
        switches: 8,
        machines: 8,
        links: &[
            (&[0, 1, 2, 3, 4, 5, 6, 7, 15], 10),
            (&[8, 9, 10, 11, 12, 13, 14, 15], 1000),
        ],
    };
    // From one group to the other every way leads through station 15.
    let ways: [Way; 6] = [
        (0, 8, Some(&[(0, 15), (1, 8)])),
        (14, 7, Some(&[(1, 15), (0, 7)])),
        (0, 15, Some(&[(0, 15)])),
        (15, 9, Some(&[(1, 9)])),
        (7, 0, Some(&[(0, 0)])),
        (8, 14, Some(&[(1, 14)])),
    ];
    groups.check::<HopCount>(&rt, rt.alloc(), &ways)?;
    groups.check::<Slowness>(&rt, rt.alloc(), &ways)
}
