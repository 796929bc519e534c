//! Whether a sheet that was handed in belongs to a plan.
ghost use Rattle.std.specs.Prelude.{◌≡◌};
ghost use Rattle.model.specs.Data.{job_of};
ghost use Rattle.model.specs.Plans.{plan_of};
ghost use Rattle.planner.specs.Order.{belongs};

use crate::order::belongs;
use crate::sheet::HandedIn;
use model::{Job, Plan};

impl HandedIn {
    /// Whether the sheet belongs to the plan: it counts the plan's steps, these are the placed tasks,
    /// and the goals of the job's filled transfers are among them.
    pub fn belongs_to(&self, job: &Job, plan: &Plan) -> bool
        ensures { result ≡ belongs (job_of job.now) self.now.count (plan_of plan.now) }
    {
        belongs(self.count, job, plan)
    }
}
