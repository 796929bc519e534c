//! The two kinds of length: how many hops a way has, and how slow its links are.
//! They are two types, each with a field of its own name, which the definitions of the two kinds read.

pub mod hop_count;
pub mod slowness;

pub use hop_count::HopCount;
pub use slowness::Slowness;
