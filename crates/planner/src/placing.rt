//! Placing a task on a machine.
ghost use Rattle.std.specs.Prelude.{◌≡◌, ◌+◌, ◌<◌, ◌≤◌, true, false, length, MatchOption, None};
ghost use Rattle.std.specs.List.{slice_get};
ghost use Rattle.model.specs.Data.{job_of, net_of, is_machine, station_count};
ghost use Rattle.model.specs.Plans.{plan_of};
ghost use Rattle.model.specs.Refusals.{refusal_of};
ghost use Rattle.routes.specs.RoutedPlans.{on};
ghost use Rattle.planner.specs.Booked.{Extends, started, book_on, needs_refusal};
ghost use Rattle.planner.specs.Calls.{left_with};
ghost use Rattle.planner.specs.Drawing.{without_transfers};
ghost use Rattle.planner.specs.Order.{in_order};
ghost use Rattle.planner.specs.Outcomes.{outcome};
ghost use Rattle.planner.specs.Placing.{bookings_needed, placed, unplaced_predecessor};
ghost use Rattle.planner.specs.States.{state};

use crate::bringing::bring_all;
use crate::clearing::{clear_transfers, roll_back};
use crate::needs::{bookings_needed, unplaced_predecessor};
use crate::order::is_in_order;
use crate::questions::book_earliest;
use crate::sheet::Drawing;
use model::speed::{Speed, ticks};
use model::{Job, Network, Placement, Plan, Refusal, Station, Tick};
use routes::{RoutedPlan, Routes};
use timetable::{Askable, Writable};

/// The work of a task, if the job has it.
fn work_of(job: &Job, task: usize) -> Option<u32>
    ensures { result ≡ slice_get (job_of job.now).works task }
{
    (task < job.task_count()).then(|| job.work(task))
}

/// The speed of a machine, if the network has it.
fn speed_of(network: &Network, machine: usize) -> Option<Speed>
    ensures { MatchOption result (is_machine (net_of network.now) machine ≡ false) (λ speed. slice_get (net_of network.now).stations machine ≡ Some (Station.Machine speed)) }
{
    match network.station(machine)? {
        Station::Machine(speed) => Some(speed),
        Station::Switch => None,
    }
}

/// Refuses a task whose predecessors are not all placed, whose files have no route to the machine,
/// or for whose bookings there is no room.
fn check_needs<R: Routes, T: Askable>(
    routed: &RoutedPlan<'_, R>,
    table: &T,
    task: usize,
    machine: usize,
) -> Result<(), Refusal>
    ensures { refusal_of result ≡ on routed.now (λ J N ρ P. needs_refusal J ρ P (T.meaning table.now) task machine) }
{
    if let Some(origin) = unplaced_predecessor(routed.job, routed.plan, task) {
        return Err(Refusal::PredecessorUnplaced(origin));
    }
    let needed = bookings_needed(routed, task, machine)?;
    if table.most().saturating_sub(table.count()) < needed {
        return Err(Refusal::NoRoom(needed));
    }
    Ok(())
}

/// Books the transfers into a task and the task, and writes the rows of the transfers; gives the task's start.
/// Where there is no start, the bookings and rows before it stand.
fn book_task<R: Routes, T: Writable>(
    routes: &R,
    job: &Job,
    plan: &mut Plan,
    table: &mut T,
    task: usize,
    machine: usize,
    duration: Tick,
) -> Result<Tick, Refusal>
    requires station { machine < station_count (net_of (R.over routes.now)) }
    requires placed { unplaced_predecessor (job_of job.now) (plan_of plan.old) task ≡ None }
    requires room { length (T.meaning table.old).bookings + bookings_needed (job_of job.now) (R.route routes.now) (plan_of plan.old) task machine ≤ (T.meaning table.old).most }
    requires blank { without_transfers (job_of job.now) task (plan_of plan.old) ≡ plan_of plan.old }
    ensures answer { started result (plan_of plan.new) (T.meaning table.new) ≡ book_on (job_of job.now) (net_of (R.over routes.now)) (R.route routes.now) (plan_of plan.old) (T.meaning table.old) task machine duration }
    ensures rows { without_transfers (job_of job.now) task (plan_of plan.new) ≡ plan_of plan.old }
    ensures kept { Extends (T.meaning table.new) (T.meaning table.old) }
{
    let ready = bring_all(routes, job, plan, table, task, machine)?;
    book_earliest(table, machine, ready, duration)
}

/// Places a task on a machine where sheet, plan and timetable are in order; gives its finish.
/// A refusal leaves all three as they were.
pub(crate) fn place_in_order<R: Routes, T: Writable>(
    sheet: &mut Drawing,
    routes: &R,
    job: &Job,
    plan: &mut Plan,
    table: &mut T,
    task: usize,
    machine: usize,
) -> Result<u64, Refusal>
    requires { in_order (job_of job.now) (net_of (R.over routes.now)) (R.route routes.now) (state sheet.old.count plan.old (T.meaning table.old)) ≡ true }
    ensures { left_with result (state sheet.new.count plan.new (T.meaning table.new)) ≡ outcome (state sheet.old.count plan.old (T.meaning table.old)) (placed (job_of job.now) (net_of (R.over routes.now)) (R.route routes.now) (state sheet.old.count plan.old (T.meaning table.old)) task machine) }
{
    let Some(work) = work_of(job, task) else {
        return Err(Refusal::NoSuchTask(task));
    };
    let Some(speed) = speed_of(routes.network(), machine) else {
        return Err(Refusal::NotAMachine(machine));
    };
    let None = plan.task(task) else {
        return Err(Refusal::AlreadyPlaced(task));
    };
    check_needs(&RoutedPlan::new(routes, job, plan), table, task, machine)?;
    let count = table.count();
    let duration = ticks(work, speed);
    match book_task(routes, job, plan, table, task, machine, duration) {
        Ok(start) => {
            let station = machine;
            plan.set_task(task, Placement { station, start }).unwrap();
            plan.add_step(task).unwrap();
            sheet.count += 1;
            Ok(u64::from(start) + u64::from(duration))
        }
        Err(refusal) => {
            roll_back(table, count);
            clear_transfers(job, plan, task);
            Err(refusal)
        }
    }
}

impl Drawing {
    ghost use Rattle.planner.specs.Drawing.{place};

    /// Places a task on a machine, with its transfers, and gives its finish. A refusal leaves sheet, plan and timetable as they were.
    pub fn place<R: Routes, T: Writable>(
        &mut self,
        routes: &R,
        job: &Job,
        plan: &mut Plan,
        table: &mut T,
        task: usize,
        machine: usize,
    ) -> Result<u64, Refusal>
        ensures { left_with result (state self.new.count plan.new (T.meaning table.new)) ≡ place (job_of job.now) (net_of (R.over routes.now)) (R.route routes.now) (state self.old.count plan.old (T.meaning table.old)) task machine }
    {
        if !is_in_order(self.count, &RoutedPlan::new(routes, job, plan), table) {
            return Err(Refusal::NotInOrder);
        }
        place_in_order(self, routes, job, plan, table, task, machine)
    }
}
