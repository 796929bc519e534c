//! The edges into each task, chained, so that those into a task are found without looking at all edges.
ghost use Rattle.std.specs.Prelude.{◌≡◌, None, slice_index_or};
ghost use Rattle.model.specs.Data.{job_of};
ghost use Rattle.planner.specs.EdgeChains.{Chained};

use model::Job;
use model::plan::{TASK_ROWS, TRANSFER_ROWS};

/// The lowest edge into each task, and after each edge the next one into the same task.
#[derive(Drop)]
pub(crate) struct EdgeChains {
    first: [Option<usize>; TASK_ROWS],
    next: [Option<usize>; TRANSFER_ROWS],
}

impl EdgeChains {
    /// The chains of a job's edges.
    pub(crate) fn of(job: &Job) -> EdgeChains
        ensures { Chained (job_of job.now).edges result.first result.next }
    {
        let edges = job.edges();
        let mut first = [None; TASK_ROWS];
        let mut next = [None; TRANSFER_ROWS];
        let mut i = edges.len();
        while i > 0 {
            i -= 1;
            let goal = edges[i].to;
            next[i] = first[goal];
            first[goal] = Some(i);
        }
        EdgeChains { first, next }
    }

    /// The lowest edge into a task.
    pub(crate) fn first(&self, task: usize) -> Option<usize>
        ensures { result ≡ slice_index_or self.now.first task None }
    {
        *self.first.get(task)?
    }

    /// The next edge into the goal of edge `i`.
    pub(crate) fn next(&self, i: usize) -> Option<usize>
        ensures { result ≡ slice_index_or self.now.next i None }
    {
        *self.next.get(i)?
    }
}
