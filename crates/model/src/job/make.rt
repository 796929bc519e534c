//! The maker of jobs.
ghost use Rattle.std.specs.Prelude.{◌≡◌, true, ◌↔◌, take, is_ok, IfOk};
ghost use Rattle.std.specs.List.{list_any};
ghost use Rattle.model.specs.JobLimits.{same_pair, edge_refusal, task_refusal, job_refusal, JobLimits};
ghost use Rattle.model.specs.Refusals.{refusal_of};

use super::{Edge, Job};
use crate::plan::{TASK_ROWS, TRANSFER_ROWS};
use crate::refusal::{Refusal, check, check_each, check_length};

/// Refuses an amount that is outside its limits, 1 to 1,000,000; `place` is where its list has it.
fn check_amount(place: usize, amount: u32) -> Result<(), Refusal>
    ensures { refusal_of result ≡ task_refusal place amount }
{
    check(
        (1..=1_000_000).contains(&amount),
        Refusal::ValueLimits(place),
    )
}

/// Whether one of the first `count` edges joins the same pair of tasks as `edge`.
fn joins_pair(edge: &Edge, edges: &[Edge], count: usize) -> bool
    ensures { result ≡ list_any (same_pair edge.now) (take count edges.now) }
{
    edges
        .iter()
        .take(count)
        .any(|other| edge.from == other.from && edge.to == other.to)
}

/// Refuses the edge at place `i` of `edges`, in a job of `tasks` tasks, if something is wrong with it.
#[tactic(auto, using(crate::proofs::Jobs::joins_any))]
fn check_edge(tasks: usize, edges: &[Edge], i: usize, edge: &Edge) -> Result<(), Refusal>
    ensures { refusal_of result ≡ edge_refusal tasks edges.now i edge.now }
{
    check_amount(i, edge.volume)?;
    let rises = edge.from < edge.to && edge.to < tasks;
    check(rises && !joins_pair(edge, edges, i), Refusal::BadEdge(i))
}

/// Refuses lists that make no job.
fn check_job(works: &[u32], edges: &[Edge]) -> Result<(), Refusal>
    ensures { refusal_of result ≡ job_refusal works.now edges.now }
{
    let tasks = works.len();
    check_length(tasks, 1, TASK_ROWS)?;
    check_length(edges.len(), 0, TRANSFER_ROWS)?;
    check_each(works, |t, work| check_amount(t, *work))?;
    check_each(edges, |i, edge| check_edge(tasks, edges, i, edge))
}

impl Job {
    /// The job of these lists, or the first reason why they make none.
    pub fn new(works: Vec<u32>, edges: Vec<Edge>) -> Result<Job, Refusal>
        ensures answer { refusal_of result ≡ job_refusal works.items edges.items }
        ensures kept { IfOk result (λ j. (j.works ≡ works) × (j.edges ≡ edges)) }
        ensures limits { is_ok result ≡ true ↔ JobLimits works.items edges.items }
    {
        check_job(&works, &edges)?;
        Ok(Job { works, edges })
    }
}
