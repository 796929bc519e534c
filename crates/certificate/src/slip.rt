//! Marking a sheet that was handed in.
ghost use Rattle.std.specs.Prelude.{◌≡◌};
ghost use Rattle.model.specs.Data.{job_of, net_of};
ghost use Rattle.model.specs.Plans.{plan_of};
ghost use Rattle.routes.specs.RoutedPlans.{on};
ghost use Rattle.certificate.specs.Slips.{slip_of, slip, given_back, counted_back};

use marker::{Rule, Verdict};
use model::plan::measures::{placed_count, plan_length};
use model::{Job, Plan, Refusal};
use planner::sheet::HandedIn;
use routes::{RoutedPlan, Routes};

/// What a sheet is given for its plan.
#[derive(Clone, Copy, Debug, PartialEq, Eq)]
pub enum Slip {
    /// How many tasks are placed, and the length of the plan.
    Lawful { placed: usize, length: u64 },
    /// The first rule that is broken, and its two numbers.
    Broken(Rule, usize, usize),
}

impl Slip {
    /// The slip of a plan with this verdict.
    pub fn of<R: Routes>(marked: &RoutedPlan<'_, R>, verdict: Verdict) -> Slip
        ensures { result ≡ on marked.now (λ J N ρ P. slip_of J N P verdict) }
    {
        match verdict {
            Verdict::Lawful => Slip::Lawful {
                placed: placed_count(marked.plan),
                length: plan_length(marked.job, marked.routes.network(), marked.plan),
            },
            Verdict::Broken(rule, first, second) => Slip::Broken(rule, first, second),
        }
    }
}

/// Marks a sheet, which is used up. One that does not belong to the plan comes back as it was.
pub fn mark<R: Routes>(
    sheet: HandedIn,
    routes: &R,
    job: &Job,
    plan: &Plan,
) -> Result<Slip, (HandedIn, Refusal)>
    ensures { counted_back result ≡ given_back sheet.count (slip (job_of job.now) (net_of (R.over routes.now)) (R.route routes.now) sheet.count (plan_of plan.now)) }
{
    if !sheet.belongs_to(job, plan) {
        return Err((sheet, Refusal::NotInOrder));
    }
    let verdict = marker::mark(routes, job, plan);
    Ok(Slip::of(&RoutedPlan::new(routes, job, plan), verdict))
}
