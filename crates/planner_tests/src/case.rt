//! Cases: calls on a sheet, with the answers and the state that are expected of them.
use crate::ask::{Ask, Told, first_wrong, sheet_of, unanswered};
use crate::fixture::Fixture;
use crate::setting::Setting;
use crate::state::State;
use certificate::Answer;
use model::Refusal;
use std::alloc::Global;
use std::process::Abort;
use std::test::Fail;
use timetable::{BitSheet, Roll, Writable};

/// Calls from a new sheet on, and what they leave.
#[derive(Drop)]
pub struct Drawn<'a> {
    pub name: &'a str,
    pub setting: &'a Setting<'a>,
    pub told: Told<'a>,
    pub left: State<'a>,
}

impl Drawn<'_> {
    /// Draws by the first calls, and goes on with the others.
    fn check_cut<T: Writable>(
        &self,
        rt: &impl Abort,
        heap: Global,
        table: &mut T,
        cut: usize,
    ) -> Result<(), Fail> {
        let mut fixture = Fixture::new(heap, self.setting)?;
        let mut asked = unanswered(heap, self.told)?;
        let cut = cut.min(asked.len());
        let (first, others) = asked.split_at_mut(cut);
        let sheet = fixture.draw(table, first)?;
        let sheet = fixture.draw_on(sheet, table, others);
        let is_left = fixture.is_left(&self.left, table, sheet);
        assert_eq!(rt;
            first_wrong(&asked, self.told),
            None,
            "{} at {cut}",
            self.name
        );
        assert!(rt; is_left, "{} at {cut}", self.name);
        Ok(())
    }

    /// Draws on a roll with room for so many bookings, with the list of calls cut in two at every place.
    pub fn check_on_roll(&self, rt: &impl Abort, heap: Global, most: usize) -> Result<(), Fail> {
        for cut in 0..=self.told.len() {
            self.check_cut(rt, heap, &mut Roll::new(heap, most)?, cut)?;
        }
        Ok(())
    }

    /// Draws on a bit sheet of 64 ticks with room for so many bookings, with the list of calls cut in two at every place.
    pub fn check_on_bits(&self, rt: &impl Abort, heap: Global, most: usize) -> Result<(), Fail> {
        for cut in 0..=self.told.len() {
            self.check_cut(rt, heap, &mut BitSheet::new(heap, 1, most)?, cut)?;
        }
        Ok(())
    }
}

/// Draws each case on both timetables, with room for 16 bookings.
pub fn check_drawn(rt: &impl Abort, heap: Global, cases: &[Drawn]) -> Result<(), Fail> {
    for case in cases {
        case.check_on_roll(rt, heap, 16)?;
        case.check_on_bits(rt, heap, 16)?;
    }
    Ok(())
}

/// Calls on a sheet that counts the steps of a state, and what they leave.
#[derive(Drop)]
pub struct Continued<'a> {
    pub name: &'a str,
    pub setting: &'a Setting<'a>,
    pub state: State<'a>,
    pub told: Told<'a>,
    pub left: State<'a>,
}

impl Continued<'_> {
    /// Writes the state to a plan and to a timetable with no bookings, and makes the calls.
    pub fn check<T: Writable>(
        &self,
        rt: &impl Abort,
        heap: Global,
        table: &mut T,
    ) -> Result<(), Fail> {
        let mut fixture = Fixture::with(heap, self.setting, &self.state, table)?;
        let mut asked = unanswered(heap, self.told)?;
        let sheet = sheet_of(heap, self.state.steps.len(), false)?;
        let sheet = fixture.draw_on(sheet, table, &mut asked);
        let is_left = fixture.is_left(&self.left, table, sheet);
        assert_eq!(rt; first_wrong(&asked, self.told), None, "{}", self.name);
        assert!(rt; is_left, "{}", self.name);
        Ok(())
    }
}

/// Calls that are refused on a sheet that counts the steps of a state.
#[derive(Drop)]
pub struct Refusals<'a> {
    pub name: &'a str,
    pub setting: &'a Setting<'a>,
    pub state: State<'a>,
    pub refused: &'a [(Ask, Refusal)],
}

impl Refusals<'_> {
    /// Writes the state to a plan and to a timetable with no bookings, and makes each call.
    /// Each leaves the state, and a sheet that is not on trial.
    pub fn check<T: Writable>(
        &self,
        rt: &impl Abort,
        heap: Global,
        table: &mut T,
    ) -> Result<(), Fail> {
        let mut fixture = Fixture::with(heap, self.setting, &self.state, table)?;
        let count = self.state.steps.len();
        for (ask, refusal) in self.refused {
            let told = [
                (*ask, Answer::Refused(*refusal)),
                (Ask::Keep, Answer::NotAllowed),
            ];
            let mut asked = unanswered(heap, &told)?;
            let sheet = sheet_of(heap, count, false)?;
            let sheet = fixture.draw_on(sheet, table, &mut asked);
            let is_left = fixture.is_left(&self.state, table, sheet);
            assert_eq!(rt;
                first_wrong(&asked, &told),
                None,
                "{}: {refusal}",
                self.name
            );
            assert!(rt; is_left, "{}: {refusal}", self.name);
        }
        Ok(())
    }
}

/// Makes the calls of each case with both timetables, with room for 16 bookings.
pub fn check_refused(rt: &impl Abort, heap: Global, cases: &[Refusals]) -> Result<(), Fail> {
    for case in cases {
        case.check(rt, heap, &mut Roll::new(heap, 16)?)?;
        case.check(rt, heap, &mut BitSheet::new(heap, 1, 16)?)?;
    }
    Ok(())
}
