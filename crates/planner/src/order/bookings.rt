//! Whether the timetable's bookings are the plan's, step by step.
ghost use Rattle.std.specs.Prelude.{◌≡◌, ◌+◌, Some, None, if◌then◌else◌};
ghost use Rattle.model.specs.Data.{job_of};
ghost use Rattle.routes.specs.Legs.{legs};
ghost use Rattle.routes.specs.RoutedPlans.{on};
ghost use Rattle.planner.specs.Bookings.{step_bookings, plan_bookings};
ghost use Rattle.planner.specs.EdgeChains.{Chained};
ghost use Rattle.planner.specs.Order.{are_same};
ghost use Rattle.planner.specs.OrderParts.{stands, place_after};

use super::chains::EdgeChains;
use model::Booking;
use model::plan::measures::task_booking;
use routes::{RoutedPlan, Routes};
use timetable::Askable;

/// The place after `place`, if the booking stands at `place`.
fn after<T: Askable>(table: &T, place: usize, booking: Booking) -> Option<usize>
    ensures { result ≡ (if stands (T.meaning table.now).bookings place booking then Some (place + 1) else None) }
{
    (place < table.count() && table.booking(place) == Some(booking)).then(|| place + 1)
}

/// The place after the legs of edge `i`, if they stand from `place` on.
fn after_legs<R: Routes, T: Askable>(
    routed: &RoutedPlan<'_, R>,
    table: &T,
    i: usize,
    place: usize,
) -> Option<usize>
    ensures { result ≡ place_after (T.meaning table.now).bookings place (on routed.now legs i) }
{
    let mut place = place;
    for k in 0..routed.leg_count(i) {
        let leg = routed.leg(i, k)?;
        place = after(table, place, leg)?;
    }
    Some(place)
}

/// The place after the bookings of a step, if they stand from `place` on.
fn after_step<R: Routes, T: Askable>(
    routed: &RoutedPlan<'_, R>,
    chains: &EdgeChains,
    table: &T,
    task: usize,
    place: usize,
) -> Option<usize>
    requires { Chained (job_of routed.now.job.now).edges chains.now.first chains.now.next }
    ensures { result ≡ place_after (T.meaning table.now).bookings place (on routed.now step_bookings task) }
{
    let mut place = place;
    let mut next = chains.first(task);
    while let Some(i) = next {
        place = after_legs(routed, table, i, place)?;
        next = chains.next(i);
    }
    let Some(row) = routed.plan.task(task) else {
        return Some(place);
    };
    let network = routed.routes.network();
    after(table, place, task_booking(routed.job, network, task, row))
}

/// Whether the timetable's bookings are those of the plan.
pub(crate) fn are_booked<R: Routes, T: Askable>(routed: &RoutedPlan<'_, R>, table: &T) -> bool
    ensures { result ≡ are_same (T.meaning table.now).bookings (on routed.now plan_bookings) }
{
    let chains = EdgeChains::of(routed.job);
    let mut place = 0;
    for task in routed.plan.steps() {
        let Some(next) = after_step(routed, &chains, table, *task, place) else {
            return false;
        };
        place = next;
    }
    place == table.count()
}
