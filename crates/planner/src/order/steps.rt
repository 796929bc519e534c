//! Which tasks are steps.
ghost use Rattle.std.specs.Prelude.{◌≡◌, true, false, MatchOption};
ghost use Rattle.model.specs.Plans.{plan_of};
ghost use Rattle.planner.specs.Order.{is_among};
ghost use Rattle.planner.specs.OrderParts.{placed_once, Marks};

use model::Plan;
use model::plan::TASK_ROWS;

/// The steps of a plan, each marked, so that whether a task is one is told at once.
#[derive(Drop)]
pub(crate) struct StepSet<'a> {
    steps: &'a [usize],
    marks: [bool; TASK_ROWS],
    ghost marked: { Marks marks steps.now },
}

impl<'a> StepSet<'a> {
    /// The steps of a plan, unless one is not placed or stands twice.
    pub(crate) fn of(plan: &'a Plan) -> Option<StepSet<'a>>
        ensures { MatchOption result (placed_once (plan_of plan.now) ≡ false) (λ set. (placed_once (plan_of plan.now) ≡ true) × (set.steps.now ≡ (plan_of plan.now).steps)) }
    {
        let steps = plan.steps();
        let mut marks = [false; TASK_ROWS];
        for task in steps {
            if *task >= TASK_ROWS || marks[*task] || plan.task(*task).is_none() {
                return None;
            }
            marks[*task] = true;
        }
        Some(StepSet { steps, marks })
    }
}

impl StepSet<'_> {
    /// Whether a task is a step.
    pub(crate) fn contains(&self, task: usize) -> bool
        ensures { result ≡ is_among self.now.steps.now task }
    {
        self.marks.get(task).copied().unwrap_or(false)
    }
}
