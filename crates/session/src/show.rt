//! Shows a drawn plan: a line for each booking, step by step, and the verdict.
ghost use Rattle.std.specs.Prelude.{[], if◌then◌else◌, ◌==◌};
ghost use Rattle.std.specs.List.{slice_get};
ghost use Rattle.std.specs.Option.{option_map_or};
ghost use Rattle.routes.specs.Legs.{legs};
ghost use Rattle.routes.specs.RoutedPlans.{on};
ghost use Rattle.session.specs.Printing.{Adds};
ghost use Rattle.session.specs.Shows.{task_line, leg_line, transfer_lines, incoming_lines, step_lines, shown};

use crate::print::print_verdict;
use marker::mark;
use model::network::MOST_STATIONS;
use model::plan::measures::task_booking;
use model::{Booking, Edge};
use routes::{RoutedPlan, Routes};
use std::io;
use std::io::Write;

/// A task on its machine.
#[tactic(auto, unfolding(crate::specs::Shows::task_line))]
fn print_task<W: Write>(out: &mut W, task: usize, booking: &Booking) -> io::Result<()>
    ensures { Adds W.contents result out.old out.new (task_line task booking.now) }
{
    writeln!(
        out,
        "task {task} on machine {} from {} to {}",
        booking.resource,
        booking.start,
        booking.end()
    )
}

/// The file of an edge on a link.
#[tactic(auto, unfolding(crate::specs::Shows::leg_line))]
fn print_leg<W: Write>(out: &mut W, edge: usize, leg: &Booking) -> io::Result<()>
    ensures { Adds W.contents result out.old out.new (leg_line edge leg.now) }
{
    writeln!(
        out,
        "edge {edge} on link {} from {} to {}",
        leg.resource.saturating_sub(MOST_STATIONS),
        leg.start,
        leg.end()
    )
}

/// The file of an edge on the link of a hop, if it is on one.
fn print_hop<R: Routes, W: Write>(
    out: &mut W,
    drawn: &RoutedPlan<'_, R>,
    edge: usize,
    hop: usize,
) -> io::Result<()>
    ensures { Adds W.contents result out.old out.new (option_map_or (leg_line edge) (slice_get (on drawn.now legs edge) hop) []) }
{
    match drawn.leg(edge, hop) {
        Some(leg) => print_leg(out, edge, &leg),
        None => Ok(()),
    }
}

/// The file of an edge, link by link.
fn print_transfer<R: Routes, W: Write>(
    out: &mut W,
    drawn: &RoutedPlan<'_, R>,
    edge: usize,
) -> io::Result<()>
    ensures { Adds W.contents result out.old out.new (on drawn.now transfer_lines edge) }
{
    for hop in 0..drawn.leg_count(edge) {
        print_hop(out, drawn, edge, hop)?;
    }
    Ok(())
}

/// The file of an edge, if it goes into a task.
fn print_into<R: Routes, W: Write>(
    out: &mut W,
    drawn: &RoutedPlan<'_, R>,
    task: usize,
    i: usize,
    edge: &Edge,
) -> io::Result<()>
    ensures { Adds W.contents result out.old out.new (if edge.now.to == task then on drawn.now transfer_lines i else []) }
{
    if edge.to == task {
        print_transfer(out, drawn, i)?;
    }
    Ok(())
}

/// The files into a task.
fn print_incoming<R: Routes, W: Write>(
    out: &mut W,
    drawn: &RoutedPlan<'_, R>,
    task: usize,
) -> io::Result<()>
    ensures { Adds W.contents result out.old out.new (on drawn.now incoming_lines task) }
{
    for (i, edge) in drawn.job.edges().iter().enumerate() {
        print_into(out, drawn, task, i, edge)?;
    }
    Ok(())
}

/// The files into a task, and the task.
fn print_step<R: Routes, W: Write>(
    out: &mut W,
    drawn: &RoutedPlan<'_, R>,
    task: usize,
) -> io::Result<()>
    ensures { Adds W.contents result out.old out.new (on drawn.now step_lines task) }
{
    print_incoming(out, drawn, task)?;
    if let Some(row) = drawn.plan.task(task) {
        let booking = task_booking(drawn.job, drawn.routes.network(), task, row);
        print_task(out, task, &booking)?;
    }
    Ok(())
}

/// Every step, and then the verdict.
pub fn print_plan<R: Routes, W: Write>(out: &mut W, drawn: &RoutedPlan<'_, R>) -> io::Result<()>
    ensures { Adds W.contents result out.old out.new (on drawn.now shown) }
{
    for task in drawn.plan.steps() {
        print_step(out, drawn, *task)?;
    }
    print_verdict(out, drawn, mark(drawn.routes, drawn.job, drawn.plan))
}
