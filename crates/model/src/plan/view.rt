//! What a plan holds.
ghost use Rattle.std.specs.Prelude.{◌≡◌, ◌≤◌, length};
ghost use Rattle.std.specs.Option.{option_map};
ghost use Rattle.std.specs.List.{slice_get};
ghost use Rattle.model.specs.Plans.{plan_of, starts_of, task_row, starts};

use super::{Placement, Plan, TransferRow};
use crate::tick::Tick;

impl Plan {
    /// The row of a task; past the table no task is placed.
    pub fn task(&self, t: usize) -> Option<Placement>
        ensures { result ≡ task_row (plan_of self.now) t }
    {
        *self.tasks.get(t)?
    }

    /// The row of a transfer, if the table has one.
    pub fn transfer(&self, e: usize) -> Option<TransferRow>
        ensures { option_map starts_of result ≡ slice_get (plan_of self.now).transfers e }
    {
        self.transfers.get(e).copied()
    }

    /// How many starts a transfer has; past the table there are none.
    pub fn start_count(&self, e: usize) -> usize
        ensures { result ≡ length (starts (plan_of self.now) e) }
    {
        self.transfers.get(e).map_or(0, |row| row.count())
    }

    /// The start of a transfer on its hop `k`.
    pub fn start(&self, e: usize, k: usize) -> Option<Tick>
        ensures { result ≡ slice_get (starts (plan_of self.now) e) k }
    {
        self.transfers.get(e)?.start(k)
    }

    /// The tasks in the order in which they were placed.
    pub fn steps(&self) -> &[usize]
        ensures value { result.now ≡ (plan_of self.now).steps }
        ensures few { length result.now ≤ 128 }
    {
        &self.steps[..self.step_count]
    }

    /// How many steps there are.
    pub fn step_count(&self) -> usize
        ensures value { result ≡ length (plan_of self.now).steps }
        ensures few { result ≤ 128 }
    {
        self.steps().len()
    }

    /// The task of a step.
    pub fn step(&self, k: usize) -> Option<usize>
        ensures { result ≡ slice_get (plan_of self.now).steps k }
    {
        self.steps().get(k).copied()
    }
}
