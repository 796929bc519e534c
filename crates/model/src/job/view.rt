//! What a job holds.
ghost use Rattle.std.specs.Prelude.{◌≡◌, ◌≤◌, length, slice_index};
ghost use Rattle.std.specs.List.{slice_get};
ghost use Rattle.model.specs.Data.{job_of, task_count};

use super::{Edge, Job};

impl Job {
    /// How many tasks there are.
    pub fn task_count(&self) -> usize
        ensures value { result ≡ task_count (job_of self.now) }
        ensures few { result ≤ 128 }
    {
        self.works.len()
    }

    /// The work of a task; a task that is not there has none.
    pub fn work(&self, t: usize) -> u32
        ensures { result ≡ slice_index (job_of self.now).works t }
    {
        self.works.get(t).copied().unwrap_or(0)
    }

    /// How many edges there are.
    pub fn edge_count(&self) -> usize
        ensures value { result ≡ length (job_of self.now).edges }
        ensures few { result ≤ 224 }
    {
        self.edges.len()
    }

    /// The edges, by their numbers.
    pub fn edges(&self) -> &[Edge]
        ensures { result.now ≡ (job_of self.now).edges }
    {
        &self.edges
    }

    /// The edge of a number.
    pub fn edge(&self, i: usize) -> Option<Edge>
        ensures { result ≡ slice_get (job_of self.now).edges i }
    {
        self.edges.get(i).copied()
    }
}
