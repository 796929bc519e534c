//! What the first lines of a script gather: the lists of which the job, the network and the routes are made.
ghost use Rattle.std.specs.Prelude.{◌≡◌, map, Some, None, if◌then◌else◌, IfOk, OnOk, OnErr};
ghost use Rattle.script.specs.Data.{line_data};
ghost use Rattle.session.specs.Settings.{setting_of, no_setting, link_from, hop_from, with_route, is_setting, with_line};

use crate::table_form::TableForm;
use model::network::MOST_STATIONS;
use model::{Edge, Link, Speed, Station, StationSet};
use routes::Hop;
use script::{HopWords, Line, RouteKind, TimetableKind};
use std::alloc::{AllocError, Global};
use std::collections::BTreeMap;
use timetable::roll::MOST_BOOKINGS;

/// The hops that are written for pairs of stations, by origin and goal.
pub type WrittenHops = BTreeMap<(usize, usize), Vec<Hop>>;

/// The lists, in the order of their lines, the hops of the pairs that a line has, and which timetable is wanted.
#[derive(Drop)]
pub struct Setting {
    pub works: Vec<u32>,
    pub edges: Vec<Edge>,
    pub stations: Vec<Station>,
    pub links: Vec<Link>,
    pub kind: RouteKind,
    pub table: TableForm,
    pub written: WrittenHops,
}

/// The link that joins these stations.
fn link_of(speed: u32, stations: &[u32]) -> Link
    ensures { result ≡ link_from speed stations.now }
{
    Link {
        stations: stations.iter().fold(
            StationSet::new(),
            |set, station| set.with(*station as usize),
        ),
        speed: Speed { rate: speed },
    }
}

/// The hop that two numbers of a line name.
fn hop_of(words: HopWords) -> Hop
    ensures { result ≡ hop_from words }
{
    Hop {
        link: words.link as usize,
        station: words.station as usize,
    }
}

/// The hops that a line has.
fn hops_of(alloc: Global, words: &[HopWords]) -> Result<Vec<Hop>, AllocError>
    ensures { IfOk result (λ hops. hops.items ≡ map hop_from words.now) }
{
    words.iter().copied().map(hop_of).collect(alloc)
}

impl Setting {
    /// What no line gathers.
    #[tactic(auto, using(crate::proofs::Pairs::pairs_empty))]
    pub fn new(alloc: Global) -> Setting
        ensures { setting_of result ≡ no_setting }
    {
        Setting {
            works: Vec::new(alloc),
            edges: Vec::new(alloc),
            stations: Vec::new(alloc),
            links: Vec::new(alloc),
            kind: RouteKind::Hops,
            table: TableForm {
                kind: TimetableKind::Roll,
                most: MOST_BOOKINGS,
            },
            written: BTreeMap::new(alloc),
        }
    }

    /// Keeps the hops of a pair of stations; of two lines for a pair the later counts.
    /// A number above 15 is no station, and its line is passed over.
    #[tactic(auto, using(crate::proofs::Pairs::pair_written, crate::proofs::Pairs::pairs_unchanged))]
    fn write_route(&mut self, from: u32, to: u32, hops: Vec<Hop>) -> Result<(), AllocError>
        ensures written { OnOk result (setting_of self.new ≡ record (setting_of self.old) { written = with_route (setting_of self.old).written from to hops.items }) }
        ensures err { OnErr result (setting_of self.new ≡ setting_of self.old) }
    {
        let pair = (from as usize, to as usize);
        if pair.0 < MOST_STATIONS && pair.1 < MOST_STATIONS {
            self.written.insert(pair, hops)?;
        }
        Ok(())
    }

    /// Takes in a line that belongs to the setting, and hands any other back.
    pub fn take(&mut self, alloc: Global, line: Line) -> Result<Option<Line>, AllocError>
        ensures handed_back { IfOk result (λ back. back ≡ (if is_setting (line_data line) then None else Some line)) }
        ensures taken { OnOk result (setting_of self.new ≡ with_line (setting_of self.old) (line_data line)) }
        ensures err { OnErr result (setting_of self.new ≡ setting_of self.old) }
    {
        match line {
            Line::Task { work } => self.works.push(work)?,
            Line::Edge { from, to, volume } => {
                let edge = Edge {
                    from: from as usize,
                    to: to as usize,
                    volume,
                };
                self.edges.push(edge)?;
            }
            Line::Machine { speed } => self.stations.push(Station::Machine(Speed { rate: speed }))?,
            Line::Switch => self.stations.push(Station::Switch)?,
            Line::Link { speed, stations } => self.links.push(link_of(speed, &stations))?,
            Line::Routes(kind) => self.kind = kind,
            Line::Route { from, to, hops } => {
                let hops = hops_of(alloc, &hops)?;
                self.write_route(from, to, hops)?;
            }
            Line::Bookings { most } => self.table.most = most as usize,
            Line::Timetable(kind) => self.table.kind = kind,
            other => return Ok(Some(other)),
        }
        Ok(None)
    }
}
