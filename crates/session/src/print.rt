//! The lines that the program prints.
ghost use Rattle.std.specs.Prelude.{◌≡◌};
ghost use Rattle.model.specs.Data.{job_of};
ghost use Rattle.routes.specs.RoutedPlans as Routed;
ghost use Rattle.session.specs.Makings.{on};
ghost use Rattle.session.specs.Printing.{Adds, maker_name, refusal_line, not_understood_line, origin_text, made_line, slip_line, verdict_line};

use crate::made::Made;
use crate::stop::Maker;
use certificate::Slip;
use marker::Verdict;
use model::{Job, Refusal};
use routes::{RoutedPlan, Routes};
use script::RouteKind;
use std::io;
use std::io::Write;

/// What could not be made, and why: the number of the refusal and its detail.
#[tactic(auto, unfolding(crate::specs::Printing::refusal_line))]
pub fn print_refusal<W: Write>(out: &mut W, maker: Maker, refusal: Refusal) -> io::Result<()>
    ensures { Adds W.contents result out.old out.new (refusal_line (maker_name maker) refusal) }
{
    writeln!(out, "{maker} refused {refusal}")
}

/// Which line is not understood.
#[tactic(auto, unfolding(crate::specs::Printing::not_understood_line))]
pub fn print_not_understood<W: Write>(out: &mut W, number: usize) -> io::Result<()>
    ensures { Adds W.contents result out.old out.new (not_understood_line number) }
{
    writeln!(out, "line {number} not understood")
}

/// How the routes of a kind came about. The kind's own name is a word of the script's, and its type another crate's.
fn origin(kind: RouteKind) -> &'static str
    ensures { result.now ≡ origin_text kind }
{
    match kind {
        RouteKind::Hops => "by hops",
        RouteKind::Slowness => "by slowness",
        RouteKind::Written => "as written",
    }
}

/// What was made.
#[tactic(auto, unfolding(crate::specs::Printing::made_line))]
pub fn print_made<R: Routes, W: Write>(out: &mut W, made: &Made<'_, R>) -> io::Result<()>
    ensures { Adds W.contents result out.old out.new (on made.now (λ J N ρ. made_line J N made.now.kind)) }
{
    let network = made.routes.network();
    writeln!(
        out,
        "job of {} tasks and {} edges, network of {} stations and {} links, routes {}",
        made.job.task_count(),
        made.job.edge_count(),
        network.station_count(),
        network.link_count(),
        origin(made.kind)
    )
}

/// A slip for a plan of the job.
#[tactic(auto, unfolding(crate::specs::Printing::slip_line))]
pub fn print_slip<W: Write>(out: &mut W, job: &Job, slip: Slip) -> io::Result<()>
    ensures { Adds W.contents result out.old out.new (slip_line (job_of job.now) slip) }
{
    match slip {
        Slip::Lawful { placed, length } => {
            writeln!(
                out,
                "lawful placed {placed} of {} length {length}",
                job.task_count()
            )
        }
        Slip::Broken(rule, first, second) => { writeln!(out, "broken {rule} {first} {second}") }
    }
}

/// What the marker says of a plan, as its slip.
pub fn print_verdict<R: Routes, W: Write>(
    out: &mut W,
    marked: &RoutedPlan<'_, R>,
    verdict: Verdict,
) -> io::Result<()>
    ensures { Adds W.contents result out.old out.new (Routed.on marked.now (λ J N ρ P. verdict_line J N P verdict)) }
{
    print_slip(out, marked.job, Slip::of(marked, verdict))
}
