//! The legs of a transfer: its bookings in a plan, one for each hop of its route.
ghost use Rattle.std.specs.Prelude.{◌≡◌, length};
ghost use Rattle.std.specs.Option.{option_map};
ghost use Rattle.model.specs.Data.{net_of};
ghost use Rattle.model.specs.Plans.{plan_of};
ghost use Rattle.routes.specs.Laws.{RouteLaws};
ghost use Rattle.routes.specs.Legs.{way};

use crate::interface::Routes;
use model::network::MOST_STATIONS;
use model::plan::measures::transfer_length;
use model::{Booking, Edge, Job, Plan};

/// How many hops an edge is booked on: none unless its tasks are placed on different stations,
/// and `None` where there is no route between those.
pub fn way_length<R: Routes>(routes: &R, plan: &Plan, edge: Edge) -> Option<usize>
    ensures { result ≡ option_map length (way (R.Routes.route routes.now) (plan_of plan.now) edge) }
{
    let (Some(from), Some(to)) = (plan.task(edge.from), plan.task(edge.to)) else {
        return Some(0);
    };
    if from.station == to.station {
        Some(0)
    } else {
        routes.route_length(from.station, to.station)
    }
}

/// A plan of a job, with the routes by which its transfers go.
/// `keeps` is what `R` promises of the routes; by it the definitions on this struct find the members of `R`.
#[derive(Drop)]
pub struct RoutedPlan<'a, R: Routes> {
    pub routes: &'a R,
    pub job: &'a Job,
    pub plan: &'a Plan,
    ghost keeps: { RouteLaws (net_of (R.Routes.over routes.now)) (R.Routes.route routes.now) },
}

impl<'a, R: Routes> RoutedPlan<'a, R> {
    /// The plan with its job and the routes.
    pub fn new(routes: &'a R, job: &'a Job, plan: &'a Plan) -> RoutedPlan<'a, R>
        ensures routes { result.routes.now ≡ routes.now }
        ensures job { result.job.now ≡ job.now }
        ensures plan { result.plan.now ≡ plan.now }
    {
        RoutedPlan { routes, job, plan }
    }
}

impl<R: Routes> RoutedPlan<'_, R> {
    ghost use Rattle.std.specs.Prelude.{length, Some, []};
    ghost use Rattle.std.specs.Option.{MatchOption, option_map};
    ghost use Rattle.std.specs.List.{slice_get};
    ghost use Rattle.routes.specs.Legs.{legs};
    ghost use Rattle.model.specs.Plans.{plan_of};
    ghost use Rattle.routes.specs.RoutedPlans.{ends, on, way_of};

    /// The stations from which and to which the file of an edge goes: those of its two tasks,
    /// if both are placed and the stations differ.
    fn ends(&self, edge: Edge) -> Option<(usize, usize)>
        ensures value { result ≡ ends (plan_of self.now.plan.now) edge }
        ensures way { MatchOption result (way_of self.now edge ≡ Some []) (λ ends. way_of self.now edge ≡ R.Routes.route self.now.routes.now ends.0 ends.1) }
    {
        let from = self.plan.task(edge.from)?.station;
        let to = self.plan.task(edge.to)?.station;
        (from != to).then_some((from, to))
    }

    /// The leg of edge `i` on its hop `k`.
    pub fn leg(&self, i: usize, k: usize) -> Option<Booking>
        ensures { result ≡ slice_get (on self.now legs i) k }
    {
        let edge = self.job.edge(i)?;
        let (from, to) = self.ends(edge)?;
        let hop = self.routes.hop(from, to, k)?;
        let start = self.plan.start(i, k)?;
        Some(Booking {
            resource: MOST_STATIONS + hop.link,
            start,
            length: transfer_length(self.routes.network(), edge.volume, hop.link),
        })
    }

    /// How many hops an edge is booked on: none unless its tasks are placed on different stations,
    /// and `None` where there is no route between those.
    pub fn way_length(&self, edge: Edge) -> Option<usize>
        ensures { result ≡ option_map length (way_of self.now edge) }
    {
        way_length(self.routes, self.plan, edge)
    }

    /// How many legs edge `i` has.
    pub fn leg_count(&self, i: usize) -> usize
        ensures { result ≡ length (on self.now legs i) }
    {
        // Not `and_then`: the proof learns nothing of what a closure that calls `way_length` answers.
        let Some(edge) = self.job.edge(i) else {
            return 0;
        };
        let Some(hops) = self.way_length(edge) else {
            return 0;
        };
        hops.min(self.plan.start_count(i))
    }
}
