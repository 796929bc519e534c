//! A new sheet.
ghost use Rattle.std.specs.Prelude.{◌≡◌};
ghost use Rattle.model.specs.Plans.{plan_of};
ghost use Rattle.planner.specs.Calls.{left_with, sheet_count};
ghost use Rattle.planner.specs.Drawing.{new_sheet};

use crate::sheet::Drawing;
use model::{Plan, Refusal, check};
use timetable::Askable;

/// A sheet with no steps. The plan is blanked; a timetable with bookings is refused.
#[tactic(auto, unfolding(crate::specs::Drawing::new_sheet))]
pub fn new_sheet<T: Askable>(plan: &mut Plan, table: &T) -> Result<Drawing, Refusal>
    ensures { left_with (sheet_count result) (plan_of plan.new) ≡ new_sheet (plan_of plan.old) (T.meaning table.now) }
{
    check(table.count() == 0, Refusal::NotInOrder)?;
    *plan = Plan::new();
    Ok(Drawing { count: 0 })
}
