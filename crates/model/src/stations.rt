//! A set of station numbers.
ghost use Rattle.std.specs.Prelude.{◌≡◌, drop};
ghost use Rattle.std.specs.List.{list_any};
ghost use Rattle.model.specs.Stations.{no_stations, with_station, has_station, count_true, station_total, names_from};

use crate::network::MOST_STATIONS;

/// Which of the numbers 0 to 15 are in the set, and whether any greater number is.
/// An array, since a set is `Copy` and takes no memory of its own.
#[derive(Clone, Copy, Debug, PartialEq, Eq)]
pub struct StationSet {
    members: [bool; MOST_STATIONS],
    beyond: bool,
}

/// How many of the flags are set.
#[tactic(auto, using(crate::proofs::Counts::true_by))]
fn count_true(flags: &[bool]) -> usize
    ensures { result ≡ count_true flags.now }
{
    flags.iter().filter(|flag| **flag).count()
}

/// Whether one of the flags from place `from` on is set.
fn is_one_set(flags: &[bool], from: usize) -> bool
    ensures { result ≡ list_any (λ b. b) (drop from flags.now) }
{
    flags.iter().skip(from).any(|flag| *flag)
}

impl StationSet {
    /// The set of no number.
    pub fn new() -> StationSet
        ensures { result ≡ no_stations }
    {
        StationSet {
            members: [false; MOST_STATIONS],
            beyond: false,
        }
    }

    /// Adds a number.
    pub fn insert(&mut self, station: usize)
        ensures { self.new ≡ with_station self.old station }
    {
        if station < MOST_STATIONS {
            self.members[station] = true;
        } else {
            self.beyond = true;
        }
    }

    /// The set with a number more.
    pub fn with(mut self, station: usize) -> StationSet
        ensures { result ≡ with_station self station }
    {
        self.insert(station);
        self
    }

    /// Whether a number from 0 to 15 is in the set.
    pub fn contains(&self, station: usize) -> bool
        ensures { result ≡ has_station self.now station }
    {
        self.members
            .get(station)
            .is_some_and(|is_member| *is_member)
    }

    /// How many of the numbers 0 to 15 are in the set.
    pub(crate) fn total(&self) -> usize
        ensures { result ≡ station_total self.now }
    {
        count_true(&self.members)
    }

    /// Whether the set has a number that is not below `limit`.
    #[tactic(auto, using(crate::proofs::Counts::some_true))]
    pub(crate) fn names_from(&self, limit: usize) -> bool
        ensures { result ≡ names_from limit self.now }
    {
        self.beyond || is_one_set(&self.members, limit)
    }
}
