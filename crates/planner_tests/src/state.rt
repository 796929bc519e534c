//! What a plan and a timetable hold, as lists of numbers.
use model::plan::{TASK_ROWS, TRANSFER_ROWS};
use model::{Booking, Placement, Plan, PlanError, Refusal, Tick, TransferRow};
use std::test::Fail;
use timetable::{Askable, Writable};

/// The rows and the steps of a plan, and the bookings of a timetable in the order in which they were made.
#[derive(Drop)]
pub struct State<'a> {
    /// Each placed task, with its station and its start.
    pub tasks: &'a [(usize, usize, Tick)],
    /// Each filled transfer, with its starts hop by hop.
    pub transfers: &'a [(usize, &'a [Tick])],
    pub steps: &'a [usize],
    /// The resource, the start and the length of each booking.
    pub bookings: &'a [(usize, Tick, Tick)],
}

/// A blank plan and a timetable with no bookings.
pub const BLANK: State = State {
    tasks: &[],
    transfers: &[],
    steps: &[],
    bookings: &[],
};

impl State<'_> {
    fn write_tasks(&self, plan: &mut Plan) -> Result<(), PlanError> {
        for (task, station, start) in self.tasks {
            let placement = Placement {
                station: *station,
                start: *start,
            };
            plan.set_task(*task, placement)?;
        }
        Ok(())
    }

    fn write_transfers(&self, plan: &mut Plan) -> Result<(), PlanError> {
        for (edge, starts) in self.transfers {
            plan.set_transfer(*edge, TransferRow::of(starts))?;
        }
        Ok(())
    }

    fn write_steps(&self, plan: &mut Plan) -> Result<(), PlanError> {
        for task in self.steps {
            plan.add_step(*task)?;
        }
        Ok(())
    }

    fn book<T: Writable>(&self, table: &mut T) -> Result<(), Refusal> {
        for (resource, start, length) in self.bookings {
            table.book(Booking {
                resource: *resource,
                start: *start,
                length: *length,
            })?;
        }
        Ok(())
    }

    /// Writes what is held to a blank plan, and books it in a timetable with no bookings.
    pub fn write<T: Writable>(&self, plan: &mut Plan, table: &mut T) -> Result<(), Fail> {
        self.write_tasks(plan)?;
        self.write_transfers(plan)?;
        self.write_steps(plan)?;
        Ok(self.book(table)?)
    }

    fn task(&self, t: usize) -> Option<Placement> {
        let row = self.tasks.iter().find(|row| row.0 == t);
        row.map(|(_, station, start)| Placement {
            station: *station,
            start: *start,
        })
    }

    fn starts(&self, edge: usize) -> &[Tick] {
        match self.transfers.iter().find(|row| row.0 == edge) {
            Some((_, starts)) => starts,
            None => &[],
        }
    }

    fn has_tasks(&self, plan: &Plan) -> bool {
        (0..TASK_ROWS).all(|t| plan.task(t) == self.task(t))
    }

    fn has_transfers(&self, plan: &Plan) -> bool {
        (0..TRANSFER_ROWS).all(|edge| {
            let row = plan.transfer(edge);
            row.is_some_and(|row| row.starts() == self.starts(edge))
        })
    }

    fn has_bookings<T: Askable>(&self, table: &T) -> bool {
        table.count() == self.bookings.len()
            && self.bookings.iter().enumerate().all(|(place, (resource, start, length))| {
                let booking = Booking {
                    resource: *resource,
                    start: *start,
                    length: *length,
                };
                table.booking(place) == Some(booking)
            })
    }

    /// Whether every row of the plan, its steps and the timetable's list are these.
    pub fn is_held<T: Askable>(&self, plan: &Plan, table: &T) -> bool {
        self.has_tasks(plan)
            && self.has_transfers(plan)
            && plan.steps() == self.steps
            && self.has_bookings(table)
    }
}
