//! The longest routes: a chain of 16 stations, whose link number l joins the stations l and l + 1, each at the lowest speed.
use super::{Shape, Way};
use routes::{HopCount, Slowness};
use std::test::Fail;

const CHAIN: Shape = Shape {
    switches: 0,
    machines: 16,
    links: &[
        (&[0, 1], 1),
        (&[1, 2], 1),
        (&[2, 3], 1),
        (&[3, 4], 1),
        (&[4, 5], 1),
        (&[5, 6], 1),
        (&[6, 7], 1),
        (&[7, 8], 1),
        (&[8, 9], 1),
        (&[9, 10], 1),
        (&[10, 11], 1),
        (&[11, 12], 1),
        (&[12, 13], 1),
        (&[13, 14], 1),
        (&[14, 15], 1),
    ],
};

/// From end to end there are 15 hops, with the slowness 15,000,000.
#[test]
fn chain(rt: HostRuntime) -> Result<(), Fail> {
    let up: Vec<(usize, usize)> = (0..15).map(|l| (l, l + 1)).collect(rt.alloc())?;
    let down: Vec<(usize, usize)> = (0..15).rev().map(|l| (l, l)).collect(rt.alloc())?;
    let ways: [Way; 4] = [
        (0, 15, Some(up.as_slice())),
        (15, 0, Some(down.as_slice())),
        (7, 9, Some(&[(7, 8), (8, 9)])),
        (9, 7, Some(&[(8, 8), (7, 7)])),
    ];
    CHAIN.check::<HopCount>(&rt, rt.alloc(), &ways)?;
    CHAIN.check::<Slowness>(&rt, rt.alloc(), &ways)
}
