//! Rules B and C: each predecessor of a placed task is placed, and each transfer has a start for each hop of its route.
ghost use Rattle.std.specs.Prelude.{◌≡◌};
ghost use Rattle.marker.specs.Markings.{on};
ghost use Rattle.marker.specs.Verdicts.{predecessors_test, routed_test};

use crate::marking::Marking;
use routes::Routes;

impl<R: Routes> Marking<'_, '_, R> {
    /// Whether the edge's goal is placed and its origin is not.
    pub(crate) fn predecessors_test(&self, i: usize) -> bool
        ensures { result ≡ on self.now predecessors_test i }
    {
        self.marked.job.edge(i).is_some_and(|e| {
            self.marked.plan.task(e.to).is_some() && self.marked.plan.task(e.from).is_none()
        })
    }

    /// Whether the edge has no way, or not as many starts as hops.
    pub(crate) fn routed_test(&self, i: usize) -> bool
        ensures { result ≡ on self.now routed_test i }
    {
        // Not `is_some_and`: the proof learns nothing of what a closure that calls `way_length` answers.
        let Some(edge) = self.marked.job.edge(i) else {
            return false;
        };
        self.marked.way_length(edge) != Some(self.marked.plan.start_count(i))
    }
}
