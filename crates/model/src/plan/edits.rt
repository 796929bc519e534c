//! Making and changing a plan.
ghost use Rattle.std.specs.Prelude.{◌≡◌, if◌then◌else◌, Some, None, nat_lt, is_ok};
ghost use Rattle.model.specs.Plans.{plan_of, starts_of, blank_plan, with_task, with_starts, with_step, step_fits, step_answer, last_step, without_last_step};
ghost use Rattle.model.specs.Rows.{row_fits, row_answer, task_answer};

use super::error::PlanError;
use super::{Placement, Plan, TASK_ROWS, TRANSFER_ROWS, TransferRow};
use crate::network::MOST_STATIONS;
use crate::refusal::check;

/// Refuses the number of a row in a table that has `rows` rows.
fn check_row(row: usize, rows: usize) -> Result<(), PlanError>
    ensures { result ≡ row_answer rows row }
{
    check(row < rows, PlanError::NoSuchRow)
}

impl Plan {
    /// A plan with no task placed, every transfer row empty, and no steps.
    pub fn new() -> Plan
        ensures { plan_of result ≡ blank_plan }
    {
        Plan {
            tasks: [None; TASK_ROWS],
            transfers: [TransferRow::new(); TRANSFER_ROWS],
            steps: [0; TASK_ROWS],
            step_count: 0,
        }
    }

    /// Places a task. Nothing is written where the task is past the table or the station above 15.
    pub fn set_task(&mut self, t: usize, row: Placement) -> Result<(), PlanError>
        ensures answer { result ≡ task_answer t row }
        ensures fits { is_ok result ≡ row_fits t row }
        ensures plan { plan_of self.new ≡ (if is_ok result then with_task (plan_of self.old) t (Some row) else plan_of self.old) }
    {
        check_row(t, TASK_ROWS)?;
        check(row.station < MOST_STATIONS, PlanError::NoSuchStation)?;
        self.tasks[t] = Some(row);
        Ok(())
    }

    /// Takes a task out of the plan, unless it is past the table.
    pub fn clear_task(&mut self, t: usize) -> Result<(), PlanError>
        ensures answer { result ≡ row_answer 128 t }
        ensures fits { is_ok result ≡ nat_lt t 128 }
        ensures plan { plan_of self.new ≡ (if is_ok result then with_task (plan_of self.old) t None else plan_of self.old) }
    {
        check_row(t, TASK_ROWS)?;
        self.tasks[t] = None;
        Ok(())
    }

    /// Writes a transfer's row, unless it is past the table.
    pub fn set_transfer(&mut self, e: usize, row: TransferRow) -> Result<(), PlanError>
        ensures answer { result ≡ row_answer 224 e }
        ensures fits { is_ok result ≡ nat_lt e 224 }
        ensures plan { plan_of self.new ≡ (if is_ok result then with_starts (plan_of self.old) e (starts_of row) else plan_of self.old) }
    {
        check_row(e, TRANSFER_ROWS)?;
        self.transfers[e] = row;
        Ok(())
    }

    /// Adds a step, unless the task is past the table or there is no room.
    pub fn add_step(&mut self, t: usize) -> Result<(), PlanError>
        ensures answer { result ≡ step_answer (plan_of self.old) t }
        ensures fits { is_ok result ≡ step_fits (plan_of self.old) t }
        ensures plan { plan_of self.new ≡ (if is_ok result then with_step (plan_of self.old) t else plan_of self.old) }
    {
        check_row(t, TASK_ROWS)?;
        check(self.step_count < TASK_ROWS, PlanError::Full)?;
        self.steps[self.step_count] = t;
        self.step_count += 1;
        Ok(())
    }

    /// Removes the last step and gives its task.
    pub fn remove_step(&mut self) -> Option<usize>
        ensures answer { result ≡ last_step (plan_of self.old) }
        ensures plan { plan_of self.new ≡ without_last_step (plan_of self.old) }
    {
        self.step_count = self.step_count.checked_sub(1)?;
        Some(self.steps[self.step_count])
    }
}
