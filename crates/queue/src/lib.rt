//! A priority queue over a slice that its caller lends: it allocates nothing, and is full when the slice is.
#![tactic(auto)]

mod heap;
mod rank;
mod sift;

pub use heap::Queue;
pub use rank::Rank;
