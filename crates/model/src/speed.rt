//! How fast a machine works and a link carries, and how long an amount takes.
ghost use Rattle.std.specs.Prelude.{◌≡◌, ◌≤◌};
ghost use Rattle.model.specs.Lengths.{speed_ok, ticks, RoundedUp};

use crate::tick::Tick;

/// How much is done in one tick.
#[derive(Clone, Copy, Debug, PartialEq, Eq)]
pub struct Speed {
    pub rate: u32,
}

impl Speed {
    /// Whether the speed is within its limits, 1 to 1000.
    pub fn is_within_limits(self) -> bool
        ensures { result ≡ speed_ok self }
    {
        (1..=1000).contains(&self.rate)
    }
}

/// How many ticks an amount takes at a speed, rounded up; at speed 0 there are none.
#[tactic(auto, using(crate::proofs::Rounding::ticks_at_zero, crate::proofs::Rounding::ticks_ceil, crate::proofs::Rounding::rounded_ceil))]
pub fn ticks(amount: u32, speed: Speed) -> Tick
    ensures value { result ≡ ticks amount speed }
    ensures fewest { 1 ≤ speed.rate → RoundedUp amount speed result }
{
    if speed.rate == 0 {
        0
    } else {
        amount.div_ceil(speed.rate)
    }
}
