//! What the lines after the setting work on.
ghost use Rattle.std.specs.Prelude.{◌≡◌};
ghost use Rattle.model.specs.Plans.{plan_of, blank_plan};

use model::Plan;

/// The candidate's answer, and the plan and the timetable of the sheet.
#[derive(Drop)]
pub(crate) struct Work<T> {
    pub(crate) answer: Plan,
    pub(crate) drawn: Plan,
    pub(crate) table: T,
}

impl<T> Work<T> {
    /// A blank answer, and a blank plan with this timetable.
    pub(crate) fn new(table: T) -> Work<T>
        ensures answer { plan_of result.answer ≡ blank_plan }
        ensures drawn { plan_of result.drawn ≡ blank_plan }
        ensures table { result.table ≡ table }
    {
        Work {
            answer: Plan::new(),
            drawn: Plan::new(),
            table,
        }
    }
}
