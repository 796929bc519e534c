//! The maker of networks.
ghost use Rattle.std.specs.Prelude.{◌≡◌, true, ◌↔◌, is_ok, IfOk};
ghost use Rattle.model.specs.NetworkLimits.{speed_refusal, station_refusal, is_a_machine, has_machine, link_refusal, network_refusal, NetworkLimits};
ghost use Rattle.std.specs.List.{list_any};
ghost use Rattle.model.specs.Refusals.{refusal_of};

use super::{Link, MOST_LINKS, MOST_STATIONS, Network, Station};
use crate::refusal::{Refusal, check, check_each, check_length};
use crate::speed::Speed;

/// Refuses a speed that is outside its limits; `place` is where its list has it.
fn check_speed(place: usize, speed: Speed) -> Result<(), Refusal>
    ensures { refusal_of result ≡ speed_refusal place speed }
{
    check(speed.is_within_limits(), Refusal::ValueLimits(place))
}

/// Refuses a machine whose speed is outside its limits; `place` is where the list has it.
fn check_station(place: usize, station: &Station) -> Result<(), Refusal>
    ensures { refusal_of result ≡ station_refusal place station.now }
{
    match *station {
        Station::Machine(speed) => check_speed(place, speed),
        Station::Switch => Ok(()),
    }
}

/// Whether one of the stations is a machine.
fn has_machine(stations: &[Station]) -> bool
    ensures { result ≡ list_any is_a_machine stations.now }
{
    stations
        .iter()
        .any(|station| matches!(*station, Station::Machine(_)))
}

/// Refuses the link at a place, in a network of `count` stations, if something is wrong with it.
fn check_link(count: usize, place: usize, link: &Link) -> Result<(), Refusal>
    ensures { refusal_of result ≡ link_refusal count place link.now }
{
    check_speed(place, link.speed)?;
    let is_bad = link.stations.total() < 2 || link.stations.names_from(count);
    check(!is_bad, Refusal::BadLink(place))
}

/// Refuses lists that make no network.
#[tactic(auto, using(crate::proofs::Counts::machine_by))]
fn check_network(stations: &[Station], links: &[Link]) -> Result<(), Refusal>
    ensures { refusal_of result ≡ network_refusal stations.now links.now }
{
    let count = stations.len();
    check_length(count, 1, MOST_STATIONS)?;
    check_length(links.len(), 0, MOST_LINKS)?;
    check_each(stations, check_station)?;
    check(has_machine(stations), Refusal::NoMachine)?;
    check_each(links, |l, link| check_link(count, l, link))
}

impl Network {
    /// The network of these lists, or the first reason why they make none.
    pub fn new(stations: Vec<Station>, links: Vec<Link>) -> Result<Network, Refusal>
        ensures answer { refusal_of result ≡ network_refusal stations.items links.items }
        ensures kept { IfOk result (λ n. (n.stations ≡ stations) × (n.links ≡ links)) }
        ensures limits { is_ok result ≡ true ↔ NetworkLimits stations.items links.items }
    {
        check_network(&stations, &links)?;
        Ok(Network { stations, links })
    }
}
