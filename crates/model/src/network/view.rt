//! What a network holds.
ghost use Rattle.std.specs.Prelude.{◌≡◌, ◌≤◌};
ghost use Rattle.std.specs.List.{slice_get};
ghost use Rattle.model.specs.NetworkLimits.{carries};
ghost use Rattle.model.specs.Data.{net_of, is_machine, machine_speed, link_speed, station_count, link_count, carries_at};

use super::{Link, Network, Station};
use crate::speed::Speed;

impl Link {
    /// Whether the link can carry a transfer from one station to the other.
    pub fn carries(&self, from: usize, to: usize) -> bool
        ensures { result ≡ carries self.now from to }
    {
        from != to && self.stations.contains(from) && self.stations.contains(to)
    }
}

impl Network {
    /// How many stations there are.
    pub fn station_count(&self) -> usize
        ensures value { result ≡ station_count (net_of self.now) }
        ensures few { result ≤ 16 }
    {
        self.stations.len()
    }

    /// How many links there are.
    pub fn link_count(&self) -> usize
        ensures value { result ≡ link_count (net_of self.now) }
        ensures few { result ≤ 32 }
    {
        self.links.len()
    }

    /// The station of a number.
    pub fn station(&self, s: usize) -> Option<Station>
        ensures { result ≡ slice_get (net_of self.now).stations s }
    {
        self.stations.get(s).copied()
    }

    /// The links, by their numbers.
    pub fn links(&self) -> &[Link]
        ensures { result.now ≡ (net_of self.now).links }
    {
        &self.links
    }

    /// The link of a number.
    pub fn link(&self, l: usize) -> Option<Link>
        ensures { result ≡ slice_get (net_of self.now).links l }
    {
        self.links.get(l).copied()
    }

    /// Whether a station is there and is a machine.
    pub fn is_machine(&self, s: usize) -> bool
        ensures { result ≡ is_machine (net_of self.now) s }
    {
        matches!(self.station(s), Some(Station::Machine(_)))
    }

    /// The speed of a machine; what is no machine has speed 0.
    pub fn machine_speed(&self, s: usize) -> Speed
        ensures { result ≡ machine_speed (net_of self.now) s }
    {
        match self.station(s) {
            Some(Station::Machine(speed)) => speed,
            Some(Station::Switch) | None => Speed { rate: 0 },
        }
    }

    /// The speed of a link; a link that is not there has speed 0.
    pub fn link_speed(&self, l: usize) -> Speed
        ensures { result ≡ link_speed (net_of self.now) l }
    {
        self.links
            .get(l)
            .map_or(Speed { rate: 0 }, |link| link.speed)
    }

    /// Whether a link is there and can carry a transfer from one station to the other.
    pub fn carries(&self, l: usize, from: usize, to: usize) -> bool
        ensures { result ≡ carries_at (net_of self.now) l from to }
    {
        self.links.get(l).is_some_and(|link| link.carries(from, to))
    }
}
