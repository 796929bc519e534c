//! Time, in whole ticks from 0.

/// A moment or a number of ticks.
pub type Tick = u32;

/// No task and no transfer may end after this moment.
pub const LATEST_END: Tick = 2_000_000_000;
