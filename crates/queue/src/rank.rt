//! The order in which the elements of a queue leave it.
ghost use Rattle.std.specs.Prelude.{◌≡◌, Bool};
ghost use Rattle.queue.specs.Orders.{IsStrictTotalOrder};

/// A type with a total order.
pub trait Rank: Copy {
    /// Whether the first leaves a queue before the second.
    ghost before: { Self → Self → Bool };

    /// Whether `self` leaves a queue before `other`.
    fn precedes(&self, other: &Self) -> bool
        ensures { result ≡ before self.now other.now };

    /// The order is strict and total, as each `impl` proves.
    ghost order: { IsStrictTotalOrder before };
}
