//! The jobs and networks of the tests.
use model::{Edge, Job, Link, Network, Speed, Station, StationSet};
use routes::searched::kinds::routes_by_hops;
use routes::{HopCount, SearchedRoutes};
use std::alloc::Global;
use std::test::Fail;

/// A network and a job, as lists of numbers.
#[derive(Drop)]
pub struct Setting<'a> {
    /// The speed of each station, 0 for a switch.
    pub speeds: &'a [u32],
    /// Of each link the two stations that it joins, and its speed.
    pub links: &'a [(usize, usize, u32)],
    pub works: &'a [u32],
    /// Of each edge the two tasks that it joins, and its volume.
    pub edges: &'a [(usize, usize, u32)],
}

/// Machines of speeds 1, 2 and 1 in a line; link 0 has speed 1, link 1 has speed 2. Task 0 feeds tasks 1 and 2.
///
/// The lengths of task 0 on the three machines are 4, 2, 4, of task 1 they are 6, 3, 6, of task 2 they are 3, 2, 3;
/// of transfer 0 on the two links they are 4, 2, of transfer 1 they are 6, 3.
pub const WORKED: Setting = Setting {
    speeds: &[1, 2, 1],
    links: &[(0, 1, 1), (1, 2, 2)],
    works: &[4, 6, 3],
    edges: &[(0, 1, 4), (0, 2, 6)],
};

/// Two machines of speed 1 with nothing between them, and tasks that feed nothing.
pub const APART: Setting = Setting {
    speeds: &[1, 1],
    links: &[],
    works: &[3, 3, 5],
    edges: &[],
};

fn station(rate: u32) -> Station {
    if rate == 0 {
        Station::Switch
    } else {
        Station::Machine(Speed { rate })
    }
}

fn link(a: usize, b: usize, rate: u32) -> Link {
    Link {
        stations: StationSet::new().with(a).with(b),
        speed: Speed { rate },
    }
}

impl Setting<'_> {
    fn network(&self, heap: Global) -> Result<Network, Fail> {
        let stations = self.speeds.iter().map(|rate| station(*rate)).collect(heap)?;
        let links = self
            .links
            .iter()
            .map(|(a, b, rate)| link(*a, *b, *rate))
            .collect(heap)?;
        Ok(Network::new(stations, links)?)
    }

    pub fn routes(&self, heap: Global) -> Result<SearchedRoutes<HopCount>, Fail> {
        Ok(routes_by_hops(heap, self.network(heap)?)?)
    }

    pub fn job(&self, heap: Global) -> Result<Job, Fail> {
        let works = self.works.to_vec(heap)?;
        let edges = self
            .edges
            .iter()
            .map(|(from, to, volume)| Edge {
                from: *from,
                to: *to,
                volume: *volume,
            })
            .collect(heap)?;
        Ok(Job::new(works, edges)?)
    }
}
