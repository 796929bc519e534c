//! The rules, each as a test of the two numbers by which it is broken.
ghost use Rattle.std.specs.Prelude.{◌≡◌, ℕ, false, IsTrue};
ghost use Rattle.marker.specs.Markings.{on};
ghost use Rattle.marker.specs.Verdicts.{test, firsts, seconds};

use crate::marking::Marking;
use crate::verdict::Rule;
use model::plan::{TASK_ROWS, TRANSFER_ROWS};
use routes::Routes;

mod clashes;
mod limits;
mod order;
mod placement;
mod rows;

impl<R: Routes> Marking<'_, '_, R> {
    /// Whether the rule is broken by these two numbers.
    pub(crate) fn is_broken(&self, rule: Rule, x: usize, y: usize) -> bool
        ensures { result ≡ on self.now test rule x y }
    {
        match rule {
            Rule::Rows => self.rows_test(x, y),
            Rule::Predecessors => self.predecessors_test(x),
            Rule::Routed => self.routed_test(x),
            Rule::WithinLimit => self.limit_test(x, y),
            Rule::Departure => self.departure_test(x),
            Rule::Causality => self.causality_test(x, y),
            Rule::Arrival => self.arrival_test(x),
            Rule::Machines => self.machines_test(x, y),
            Rule::Links => self.links_test(x, y),
        }
    }

    /// Whether a quick test shows that the rule is not broken with the first number `x`.
    pub(crate) fn surely_holds(&self, rule: Rule, x: usize) -> bool
        ensures { IsTrue result → (y : ℕ) → on self.now test rule x y ≡ false }
    {
        match rule {
            Rule::Machines => self.booking(x).is_none(),
            Rule::Links => self.overlaps_none_later(x),
            _ => false,
        }
    }

    /// How many first numbers are to be looked at.
    pub(crate) fn first_count(&self, rule: Rule) -> usize
        ensures { result ≡ on self.now firsts rule }
    {
        match rule {
            Rule::Rows | Rule::WithinLimit => 2,
            Rule::Machines => TASK_ROWS,
            Rule::Predecessors
            | Rule::Routed
            | Rule::Departure
            | Rule::Causality
            | Rule::Arrival
            | Rule::Links => self.marked.job.edge_count(),
        }
    }

    /// How many second numbers are to be looked at beside `x`.
    pub(crate) fn second_count(&self, rule: Rule, x: usize) -> usize
        ensures { result ≡ on self.now seconds rule x }
    {
        match rule {
            Rule::Rows => TASK_ROWS + TRANSFER_ROWS,
            Rule::WithinLimit => TASK_ROWS + self.marked.job.edge_count(),
            Rule::Causality => self.marked.plan.start_count(x),
            Rule::Machines => TASK_ROWS,
            Rule::Links => self.marked.job.edge_count(),
            Rule::Predecessors | Rule::Routed | Rule::Departure | Rule::Arrival => 1,
        }
    }
}
