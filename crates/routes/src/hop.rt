//! A hop: one step of a route.

/// Over `link` to `station`.
#[derive(Clone, Copy, Debug, PartialEq, Eq)]
pub struct Hop {
    pub link: usize,
    pub station: usize,
}
