//! A network: stations and the links that join them.
ghost use Rattle.std.specs.Prelude.{◌≡◌, false, is_some};
ghost use Rattle.model.specs.NetworkLimits.{network_refusal};

use crate::speed::Speed;
use crate::stations::StationSet;

pub mod make;
pub mod view;

/// How many stations a network has at most.
pub const MOST_STATIONS: usize = 16;

/// How many links a network has at most.
pub const MOST_LINKS: usize = 32;

/// A machine does tasks; a switch only passes files on.
#[derive(Clone, Copy, Debug, PartialEq, Eq)]
pub enum Station {
    Machine(Speed),
    Switch,
}

/// Carries one transfer at a time, between any two of its stations, in either direction.
#[derive(Clone, Copy, Debug, PartialEq, Eq)]
pub struct Link {
    pub stations: StationSet,
    pub speed: Speed,
}

/// Stations and links, all within their limits.
#[derive(Drop)]
pub struct Network {
    stations: Vec<Station>,
    links: Vec<Link>,
    ghost limits: { is_some (network_refusal stations.items links.items) ≡ false },
}
