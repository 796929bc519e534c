//! Trials: a task is placed on trial, and then kept or struck.
ghost use Rattle.std.specs.Prelude.{◌≡◌};
ghost use Rattle.model.specs.Data.{job_of, net_of};
ghost use Rattle.model.specs.declared.plan.Plan.{Plan as PlanRows};
ghost use Rattle.timetable.specs.Tables.{Table};
ghost use Rattle.planner.specs.Calls.{left_with};
ghost use Rattle.planner.specs.TrialCalls.{left_by_try};
ghost use Rattle.planner.specs.States.{state};
ghost use Rattle.planner.specs.Trials.{BeingDrawn, try_place, keep, strike};

use crate::sheet::{Drawing, HandedIn, OnTrial};
use model::{Job, Plan, Refusal};
use routes::Routes;
use timetable::Writable;

impl Drawing {
    /// Places a task on a machine on trial, and gives its finish. A refusal leaves everything as it was.
    pub fn try_place<R: Routes, T: Writable>(
        self,
        routes: &R,
        job: &Job,
        plan: &mut Plan,
        table: &mut T,
        task: usize,
        machine: usize,
    ) -> Result<(OnTrial, u64), (Drawing, Refusal)>
        ensures { left_by_try result plan.new (T.Askable.meaning table.new) ≡ try_place (job_of job.now) (net_of (R.Routes.over routes.now)) (R.Routes.route routes.now) (state self.count plan.old (T.Askable.meaning table.old)) task machine }
    {
        let mut sheet = self;
        match sheet.place(routes, job, plan, table, task, machine) {
            Ok(finish) => Ok((OnTrial { count: sheet.count }, finish)),
            Err(refusal) => Err((sheet, refusal)),
        }
    }

    /// Ends the drawing.
    pub fn hand_in(self) -> HandedIn
        ensures { result.count ≡ self.count }
    {
        HandedIn { count: self.count }
    }
}

impl OnTrial {
    /// Keeps the step that was on trial.
    pub fn keep(self) -> Drawing
        ensures count { result.count ≡ self.count }
        ensures sheet { (plan : PlanRows) (table : Table) → BeingDrawn (state result.count plan table) ≡ keep (state self.count plan table) }
    {
        let OnTrial { count } = self;
        Drawing { count }
    }

    /// Takes the step that was on trial back, and gives its task. A refusal ends the trial too: the step is kept.
    pub fn strike<R: Routes, T: Writable>(
        self,
        routes: &R,
        job: &Job,
        plan: &mut Plan,
        table: &mut T,
    ) -> (Drawing, Result<usize, Refusal>)
        ensures { left_with result.1 (BeingDrawn (state result.0.count plan.new (T.Askable.meaning table.new))) ≡ strike (job_of job.now) (net_of (R.Routes.over routes.now)) (R.Routes.route routes.now) (state self.count plan.old (T.Askable.meaning table.old)) }
    {
        let mut sheet = self.keep();
        let answer = sheet.take_back(routes, job, plan, table);
        (sheet, answer)
    }
}

impl HandedIn {
    /// How many steps were drawn.
    pub fn step_count(&self) -> usize
        ensures { result ≡ self.now.count }
    {
        self.count
    }
}
