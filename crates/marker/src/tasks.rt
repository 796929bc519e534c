//! The bookings of all tasks, each computed once.
ghost use Rattle.std.specs.Prelude.{◌≡◌, None, slice_index_or};
ghost use Rattle.std.specs.Option.{option_map};
ghost use Rattle.model.specs.Plans.{task_row, task_booking};
ghost use Rattle.routes.specs.RoutedPlans.{on};
ghost use Rattle.marker.specs.Tasks.{TasksTell};

use model::Booking;
use model::plan::TASK_ROWS;
use model::plan::measures::task_booking;
use routes::{RoutedPlan, Routes};
use std::array;

/// The booking of a task on its machine.
fn booking<R: Routes>(plan: &RoutedPlan<'_, R>, t: usize) -> Option<Booking>
    ensures { result ≡ on plan.now (λ J N ρ P. option_map (task_booking J N t) (task_row P t)) }
{
    let row = plan.plan.task(t)?;
    Some(task_booking(plan.job, plan.routes.network(), t, row))
}

/// The booking of task `t` stands at place `t`, and `None` where it is not placed.
#[derive(Drop)]
pub(crate) struct TaskTable {
    bookings: [Option<Booking>; TASK_ROWS],
}

impl TaskTable {
    /// The bookings of a plan's tasks.
    pub(crate) fn new<R: Routes>(plan: &RoutedPlan<'_, R>) -> TaskTable
        ensures { TasksTell result plan.now }
    {
        TaskTable {
            bookings: array::from_fn(|t| booking(plan, t)),
        }
    }

    /// The booking of task `t`.
    pub(crate) fn get(&self, t: usize) -> Option<Booking>
        ensures { result ≡ slice_index_or self.now.bookings t None }
    {
        *self.bookings.get(t)?
    }
}
