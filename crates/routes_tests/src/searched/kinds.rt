//! The two kinds of length by themselves, with values that no route shows.
use super::link;
use queue::Rank;
use routes::{HopCount, Length, Slowness};

/// A way has no hop at first and gains one with each link; the count stops at the greatest number.
#[test]
fn hop_count(rt: HostRuntime) {
    let none = HopCount::start();
    assert_eq!(rt; none.count, 0);
    let two = none
        .lengthen(&link(&[0, 1], 1))
        .lengthen(&link(&[1, 2], 1000));
    assert_eq!(rt; two.count, 2);
    assert!(rt; none.precedes(&two) && !two.precedes(&none) && !two.precedes(&two));
    let most = HopCount { count: u32::MAX };
    assert_eq!(rt; most.lengthen(&link(&[0, 1], 1)), most);
}

/// A million by the speed is 1000 at 1000, 1001 and a part at 999, and 333,333 and a part at 3; parts are rounded up.
#[test]
fn slowness(rt: HostRuntime) {
    let none = Slowness::start();
    assert_eq!(rt; none.total, 0);
    for (rate, total) in [(1000, 1000), (999, 1002), (3, 333_334), (1, 1_000_000)] {
        assert_eq!(rt;
            none.lengthen(&link(&[0, 1], rate)).total,
            total,
            "at speed {rate}"
        );
    }
    let both = none.lengthen(&link(&[0, 1], 3)).lengthen(&link(&[1, 2], 3));
    assert_eq!(rt; both.total, 666_668);
    assert!(rt; none.precedes(&both) && !both.precedes(&none) && !both.precedes(&both));
    let almost = Slowness {
        total: u32::MAX - 999,
    };
    assert_eq!(rt; almost.lengthen(&link(&[0, 1], 1000)).total, u32::MAX);
}
