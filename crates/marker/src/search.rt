//! The search for the first broken rule.
ghost use Rattle.std.specs.Prelude.{◌≡◌};
ghost use Rattle.model.specs.Data.{job_of, net_of};
ghost use Rattle.model.specs.Lowest.{lowest};
ghost use Rattle.model.specs.Plans.{plan_of};
ghost use Rattle.marker.specs.Markings.{on};
ghost use Rattle.marker.specs.Verdicts.{seconds, spot, search_rule, verdict, NamesFirst};

use crate::legs::LegTable;
use crate::marking::Marking;
use crate::spans::SpanTable;
use crate::verdict::{Rule, Verdict};
use model::{Job, Plan};
use routes::{RoutedPlan, Routes};

impl<R: Routes> Marking<'_, '_, R> {
    /// The first break of the rule with the first number `x`.
    fn break_at(&self, rule: Rule, x: usize) -> Option<Verdict>
        ensures { result ≡ lowest (on self.now spot rule x) (on self.now seconds rule x) }
    {
        if self.surely_holds(rule, x) {
            return None;
        }
        (0..self.second_count(rule, x))
            .find(|y| self.is_broken(rule, x, *y))
            .map(|y| Verdict::Broken(rule, x, y))
    }

    /// The first break of the rule.
    fn first_break(&self, rule: Rule) -> Option<Verdict>
        ensures { result ≡ on self.now search_rule rule }
    {
        (0..self.first_count(rule)).find_map(|x| self.break_at(rule, x))
    }
}

/// The verdict on a plan.
pub fn mark<R: Routes>(routes: &R, job: &Job, plan: &Plan) -> Verdict
    ensures answer { result ≡ verdict (job_of job.now) (net_of (R.Routes.over routes.now)) (R.Routes.route routes.now) (plan_of plan.now) }
    ensures first { NamesFirst (job_of job.now) (net_of (R.Routes.over routes.now)) (R.Routes.route routes.now) (plan_of plan.now) }
{
    let marked = RoutedPlan::new(routes, job, plan);
    let mut legs = LegTable::blank();
    legs.fill(&marked);
    let mut spans = SpanTable::blank();
    spans.fill(&legs);
    let marking = Marking::new(marked, &legs, &spans);
    Rule::ALL
        .iter()
        .find_map(|rule| marking.first_break(*rule))
        .unwrap_or(Verdict::Lawful)
}
