//! A job: tasks, and the edges along which they feed each other files.
ghost use Rattle.std.specs.Prelude.{◌≡◌, false, is_some};
ghost use Rattle.model.specs.JobLimits.{job_refusal};

pub mod make;
pub mod view;

/// The task `from` feeds a file of `volume` to the task `to`.
#[derive(Clone, Copy, Debug, PartialEq, Eq)]
pub struct Edge {
    pub from: usize,
    pub to: usize,
    pub volume: u32,
}

/// The work of each task, and the edges, all within their limits.
#[derive(Drop)]
pub struct Job {
    works: Vec<u32>,
    edges: Vec<Edge>,
    ghost limits: { is_some (job_refusal works.items edges.items) ≡ false },
}
