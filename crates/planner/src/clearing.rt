//! Taking back what was booked and written.
ghost use Rattle.std.specs.Prelude.{◌≡◌};
ghost use Rattle.model.specs.Data.{job_of};
ghost use Rattle.model.specs.Plans.{plan_of};
ghost use Rattle.planner.specs.Booked.{first_bookings};
ghost use Rattle.planner.specs.Drawing.{without_transfers};

use model::{Job, Plan, TransferRow};
use timetable::Writable;

/// Takes back the newest bookings until `count` are left.
pub(crate) fn roll_back<T: Writable>(table: &mut T, count: usize)
    ensures { T.meaning table.new ≡ first_bookings count (T.meaning table.old) }
{
    while table.count() > count {
        let _ = table.take_back();
    }
}

/// Empties the rows of the edges into a task.
pub(crate) fn clear_transfers(job: &Job, plan: &mut Plan, task: usize)
    ensures { plan_of plan.new ≡ without_transfers (job_of job.now) task (plan_of plan.old) }
{
    for (i, edge) in job.edges().iter().enumerate() {
        if edge.to == task {
            let _ = plan.set_transfer(i, TransferRow::new());
        }
    }
}
