//! The search from one station.
ghost use Rattle.std.specs.Prelude.{◌≡◌, ◌+◌, ◌<◌, ◌≤◌, ◌++◌, ◌∷◌, [], length, IfOk, OnOk};
ghost use Rattle.std.specs.Option.{option_to_list};
ghost use Rattle.std.specs.List.Sorted.{IsPermutation};
ghost use Rattle.queue.specs.Items.{items, room};
ghost use Rattle.model.specs.Data.{net_of, station_count};
ghost use Rattle.routes.specs.Search.{is_settled, search_order};
ghost use Rattle.routes.specs.Offers.{later, offer_to, offers};

use crate::length::Length;
use crate::settled::Settled;
use model::Network;
use model::network::MOST_STATIONS;
use queue::{Queue, Rank};
use std::alloc::{AllocError, Global};

/// How many ways can wait at once: one from each station to each.
pub const MOST_WAYS: usize = MOST_STATIONS * MOST_STATIONS;

/// The better of two ways, the first where neither is.
fn better<L: Length>(first: Settled<L>, second: Settled<L>) -> Settled<L>
    ensures { result ≡ later L.before second (Some first) }
{
    if second.distance.precedes(&first.distance) {
        second
    } else {
        first
    }
}

/// A search from one station, under way: the stations settled so far, in order, and the ways that wait.
/// The bound on `Settled<L>`, which every `L` meets, is repeated since a `Queue` has ghost fields.
#[derive(Drop)]
struct Search<'n, 's, L: Length>
where
    Settled<L>: Rank,
{
    network: &'n Network,
    settled: Vec<Settled<L>>,
    queue: Queue<'s, Settled<L>>,
}

impl<L: Length> Search<'_, '_, L>
where
    Settled<L>: Rank,
{
    /// Whether one of the settled stations is `t`.
    fn is_settled(&self, t: usize) -> bool
        ensures { result ≡ is_settled self.now.settled.items t }
    {
        self.settled.iter().any(|a| a.station == t)
    }

    /// The best way on to station `t` from `a`, which is settled at place `i`; over the lowest link among equals.
    /// There is none where `t` is settled, or no link leads there.
    /// `a` and `i` are parameters: read from `settled` they would be an `Option`, and so would each clause on them.
    fn best_way(&self, i: usize, a: &Settled<L>, t: usize) -> Option<Settled<L>>
        requires { a.now.hops < 16 }
        ensures { option_to_list result ≡ offer_to L.before L.longer (net_of self.now.network.now) self.now.settled.items (i, a.now) t }
    {
        if self.is_settled(t) {
            return None;
        }
        self.network
            .links()
            .iter()
            .enumerate()
            .filter(|(_, link)| link.carries(a.station, t))
            .map(|(l, link)| Settled {
                station: t,
                distance: a.distance.lengthen(link),
                from: i,
                link: l,
                hops: a.hops + 1,
            })
            .reduce(better)
    }

    /// Settles a station by `way`, and puts the best ways on from it into the queue, one to each station that is not settled.
    fn settle(&mut self, way: Settled<L>) -> Result<(), AllocError>
        requires short { way.hops < 16 }
        requires fits { length (items self.old.queue) + station_count (net_of self.old.network.now) ≤ room self.old.queue }
        ensures settled { OnOk result (self.new.settled.items ≡ self.old.settled.items ++ way ∷ []) }
        ensures items { OnOk result (IsPermutation (offers L.before L.longer (net_of self.old.network.now) self.new.settled.items (length self.old.settled.items, way) ++ items self.old.queue) (items self.new.queue)) }
        ensures count { length (items self.new.queue) ≤ length (items self.old.queue) + station_count (net_of self.old.network.now) }
        ensures room { room self.new.queue ≡ room self.old.queue }
        ensures network { self.new.network ≡ self.old.network }
    {
        let i = self.settled.len();
        self.settled.push(way)?;
        for t in 0..self.network.station_count() {
            if let Some(on) = self.best_way(i, &way, t) {
                self.queue.push(on).unwrap();
            }
        }
        Ok(())
    }
}

/// The stations settled from `source`, in order. The ways that wait stand in `slots`.
pub(crate) fn search_from<L: Length>(
    alloc: Global,
    network: &Network,
    source: usize,
    slots: &mut [Settled<L>],
) -> Result<Vec<Settled<L>>, AllocError>
    requires known { source < station_count (net_of network.now) }
    requires room { 256 ≤ length slots.old }
    ensures { IfOk result (λ v. v.items ≡ search_order L.before L.longer (net_of network.now) L.starting source) }
{
    let mut search = Search {
        network,
        settled: Vec::new(alloc),
        queue: Queue::new(slots),
    };
    search.settle(Settled::source(source))?;
    while let Some(way) = search.queue.pop() {
        if !search.is_settled(way.station) {
            search.settle(way)?;
        }
    }
    Ok(search.settled)
}
