//! Placing a task where it finishes first.
ghost use Rattle.std.specs.Prelude.{◌≡◌, if◌then◌else◌, Err, nat_lt, MatchOption};
ghost use Rattle.std.specs.Option.{option_map, option_map_or};
ghost use Rattle.std.specs.Result.{result_ok};
ghost use Rattle.model.specs.Data.{job_of, net_of};
ghost use Rattle.model.specs.declared.refusal.Refusal.TheVariants.{EveryMachineRefuses};
ghost use Rattle.planner.specs.Calls.{left_with};
ghost use Rattle.planner.specs.Filling.{placed_first};
ghost use Rattle.planner.specs.Outcomes.{outcome};
ghost use Rattle.planner.specs.Placing.{placed};
ghost use Rattle.planner.specs.States.{state, Ordered};

use crate::placing::place_in_order;
use crate::sheet::Drawing;
use crate::undo::take_back_step;
use model::{Job, Plan, Refusal};
use routes::Routes;
use timetable::Writable;

/// A machine, and when a task finishes on it.
#[derive(Clone, Copy)]
struct Finish {
    tick: u64,
    machine: usize,
}

/// The earlier of two finishes, the former where they are equal.
fn earlier(first: Option<Finish>, next: Finish) -> Finish
    ensures { result ≡ option_map_or (λ f. if nat_lt next.tick f.tick then next else f) first next }
{
    match first {
        Some(first) if first.tick <= next.tick => first,
        _ => next,
    }
}

/// When a task would finish on a machine, unless it is refused there: it is placed and taken back again.
fn finish_on<R: Routes, T: Writable>(
    sheet: &mut Drawing,
    routes: &R,
    job: &Job,
    plan: &mut Plan,
    table: &mut T,
    task: usize,
    machine: usize,
) -> Option<u64>
    requires { Ordered (job_of job.now) (net_of (R.over routes.now)) (R.route routes.now) (state sheet.old.count plan.old (T.meaning table.old)) }
    ensures finish { result ≡ option_map (λ end. end.0) (result_ok (placed (job_of job.now) (net_of (R.over routes.now)) (R.route routes.now) (state sheet.old.count plan.old (T.meaning table.old)) task machine)) }
    ensures unchanged { state sheet.new.count plan.new (T.meaning table.new) ≡ state sheet.old.count plan.old (T.meaning table.old) }
{
    let finish = place_in_order(sheet, routes, job, plan, table, task, machine).ok()?;
    let _ = take_back_step(sheet, routes, job, plan, table);
    Some(finish)
}

/// The machine on which a task finishes first, the lowest one among equals; none where every machine refuses it.
fn first_machine<R: Routes, T: Writable>(
    sheet: &mut Drawing,
    routes: &R,
    job: &Job,
    plan: &mut Plan,
    table: &mut T,
    task: usize,
) -> Option<usize>
    requires { Ordered (job_of job.now) (net_of (R.over routes.now)) (R.route routes.now) (state sheet.old.count plan.old (T.meaning table.old)) }
    ensures first { MatchOption result
        (placed_first (job_of job.now) (net_of (R.over routes.now)) (R.route routes.now) (state sheet.old.count plan.old (T.meaning table.old)) task ≡ Err (EveryMachineRefuses task))
        (λ machine. placed_first (job_of job.now) (net_of (R.over routes.now)) (R.route routes.now) (state sheet.old.count plan.old (T.meaning table.old)) task ≡ placed (job_of job.now) (net_of (R.over routes.now)) (R.route routes.now) (state sheet.old.count plan.old (T.meaning table.old)) task machine) }
    ensures unchanged { state sheet.new.count plan.new (T.meaning table.new) ≡ state sheet.old.count plan.old (T.meaning table.old) }
{
    let mut first = None;
    for machine in 0..routes.network().station_count() {
        if let Some(tick) = finish_on(sheet, routes, job, plan, table, task, machine) {
            first = Some(earlier(first, Finish { tick, machine }));
        }
    }
    first.map(|finish| finish.machine)
}

/// Places a task where it finishes first, on the lowest machine among equals, and gives the finish.
pub(crate) fn place_first<R: Routes, T: Writable>(
    sheet: &mut Drawing,
    routes: &R,
    job: &Job,
    plan: &mut Plan,
    table: &mut T,
    task: usize,
) -> Result<u64, Refusal>
    requires { Ordered (job_of job.now) (net_of (R.over routes.now)) (R.route routes.now) (state sheet.old.count plan.old (T.meaning table.old)) }
    ensures { left_with result (state sheet.new.count plan.new (T.meaning table.new)) ≡ outcome (state sheet.old.count plan.old (T.meaning table.old)) (placed_first (job_of job.now) (net_of (R.over routes.now)) (R.route routes.now) (state sheet.old.count plan.old (T.meaning table.old)) task) }
{
    let Some(machine) = first_machine(sheet, routes, job, plan, table, task) else {
        return Err(Refusal::EveryMachineRefuses(task));
    };
    place_in_order(sheet, routes, job, plan, table, task, machine)
}
