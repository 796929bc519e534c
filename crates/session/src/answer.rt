//! A candidate's answer: its rows, and the marker's verdict on it.
ghost use Rattle.std.specs.Prelude.{◌≡◌};
ghost use Rattle.model.specs.Plans.{plan_of};
ghost use Rattle.script.specs.Data.{line_data};
ghost use Rattle.session.specs.Answers.{plan_after, text_of};
ghost use Rattle.session.specs.Makings.{on};
ghost use Rattle.session.specs.Stops.{Prints};

use crate::made::Made;
use crate::print::print_verdict;
use crate::stop::Stop;
use marker::mark;
use model::{Placement, Plan, TransferRow};
use routes::{RoutedPlan, Routes};
use script::Line;
use std::io::Write;

/// Carries out one line of an answer. A line of the setting is not understood here.
pub(crate) fn answer_line<R: Routes, W: Write>(
    out: &mut W,
    made: &Made<'_, R>,
    plan: &mut Plan,
    line: Line,
) -> Result<(), Stop>
    ensures plan { plan_of plan.new ≡ plan_after (plan_of plan.old) (line_data line) }
    ensures text { Prints result (W.contents out.old) (W.contents out.new) (on made.now text_of (plan_of plan.old) (line_data line)) }
{
    match line {
        Line::Answer => *plan = Plan::new(),
        Line::Row {
            task,
            station,
            start,
        } => {
            let station = station as usize;
            // A row that the plan does not take leaves the plan as it was.
            let _ = plan.set_task(task as usize, Placement { station, start });
        }
        Line::Starts { edge, starts } => {
            let _ = plan.set_transfer(edge as usize, TransferRow::of(&starts));
        }
        Line::Mark => {
            let verdict = mark(made.routes, made.job, plan);
            print_verdict(out, &RoutedPlan::new(made.routes, made.job, plan), verdict)?;
        }
        _ => return Err(Stop::NotUnderstood),
    }
    Ok(())
}
