//! A setting with a plan, to draw on.
use crate::setting::Setting;
use crate::state::State;
use certificate::draw::{draw, draw_on};
use certificate::{Asked, Sheet};
use model::{Job, Plan, Refusal};
use planner::sheet::Drawing;
use routes::{HopCount, SearchedRoutes};
use std::alloc::Global;
use std::test::Fail;
use timetable::Writable;

/// Routes, a job and a plan. The calls have no clauses: a test compares what is left, and its proof needs nothing of it.
#[derive(Drop)]
pub struct Fixture {
    pub routes: SearchedRoutes<HopCount>,
    pub job: Job,
    pub plan: Plan,
}

impl Fixture {
    /// A setting with a blank plan.
    pub fn new(heap: Global, setting: &Setting) -> Result<Fixture, Fail> {
        Ok(Fixture {
            routes: setting.routes(heap)?,
            job: setting.job(heap)?,
            plan: Plan::new(),
        })
    }

    /// A setting with the plan of a state, which is booked in a timetable with no bookings.
    pub fn with<T: Writable>(
        heap: Global,
        setting: &Setting,
        state: &State,
        table: &mut T,
    ) -> Result<Fixture, Fail> {
        let mut fixture = Fixture::new(heap, setting)?;
        state.write(&mut fixture.plan, table)?;
        Ok(fixture)
    }

    /// Makes the calls on a new sheet.
    pub fn draw<T: Writable>(
        &mut self,
        table: &mut T,
        asked: &mut [Asked],
    ) -> Result<Sheet, Refusal> {
        draw(&self.routes, &self.job, &mut self.plan, table, asked)
    }

    /// Makes the calls on a sheet.
    pub fn draw_on<T: Writable>(
        &mut self,
        sheet: Sheet,
        table: &mut T,
        asked: &mut [Asked],
    ) -> Drawing {
        draw_on(sheet, &self.routes, &self.job, &mut self.plan, table, asked).keep()
    }

    /// Whether plan and timetable hold a state, and the sheet counts its steps.
    pub fn is_left<T: Writable>(&self, state: &State, table: &T, sheet: Drawing) -> bool {
        state.is_held(&self.plan, table) && sheet.hand_in().step_count() == state.steps.len()
    }
}
