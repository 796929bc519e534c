//! Tests of searched routes. Each expected route is worked out by hand, from the rule of the search: stations are settled
//! best first, the lowest number among equals, and a station's last hop comes from the first settled one that offers its
//! best length, over the lowest-numbered such link.
use model::{Link, Network, Speed, Station, StationSet};
use routes::{Length, Routes, SearchedRoutes};
use std::alloc::{AllocError, Global};
use std::process::Abort;
use std::test::Fail;

mod chain;
mod kinds;
mod shapes;
mod ties;

/// A network: so many switches, then so many machines, and the stations and the speed of each link.
#[derive(Drop)]
struct Shape<'a> {
    switches: usize,
    machines: usize,
    links: &'a [(&'a [usize], u32)],
}

/// From the one station to the other the expected route, if there is one: its links, each with the station it leads to.
type Way<'a> = (usize, usize, Option<&'a [(usize, usize)]>);

fn link(stations: &[usize], rate: u32) -> Link {
    Link {
        stations: stations
            .iter()
            .fold(StationSet::new(), |set, station| set.with(*station)),
        speed: Speed { rate },
    }
}

impl Shape<'_> {
    fn network(&self, alloc: Global) -> Result<Network, Fail> {
        let machine = Station::Machine(Speed { rate: 1 });
        let mut stations = vec![in alloc; Station::Switch; self.switches]?;
        stations.resize(self.switches.saturating_add(self.machines), machine)?;
        let links = self
            .links
            .iter()
            .map(|(stations, rate)| link(stations, *rate))
            .collect(alloc)?;
        Ok(Network::new(stations, links)?)
    }

    /// Searches the network by the kind of length `L`, and compares what is answered with these ways.
    fn check<L: Length>(&self, rt: &impl Abort, alloc: Global, ways: &[Way]) -> Result<(), Fail> {
        let routes = SearchedRoutes::<L>::new(alloc, self.network(alloc)?)?;
        let count = routes.network().station_count();
        assert_eq!(rt; count, self.switches.saturating_add(self.machines));
        for (from, to, way) in ways {
            let length = way.map(|hops| hops.len());
            assert_eq!(rt;
                routes.route_length(*from, *to),
                length,
                "from {from} to {to}"
            );
            let hops = hops(alloc, &routes, *from, *to)?;
            assert_eq!(rt; hops.as_slice(), way.unwrap_or(&[]), "from {from} to {to}");
        }
        Ok(())
    }
}

/// The hops that are answered from one station to another, at any place up to the 16th.
fn hops<R: Routes>(
    alloc: Global,
    routes: &R,
    from: usize,
    to: usize,
) -> Result<Vec<(usize, usize)>, AllocError> {
    (0..16)
        .filter_map(|i| routes.hop(from, to, i))
        .map(|hop| (hop.link, hop.station))
        .collect(alloc)
}
