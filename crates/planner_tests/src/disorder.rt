//! States that are not in order: every call is refused by 20, whatever it asks for, and changes nothing.
use crate::ask::Ask::{Fill, Keep, Place, Strike, TakeBack, Try};
use crate::ask::{Told, first_wrong, sheet_of, unanswered};
use crate::fixture::Fixture;
use crate::setting::Setting;
use crate::state::State;
use certificate::Answer::{NotAllowed, Refused};
use model::Refusal::NotInOrder;
use std::alloc::Global;
use std::process::Abort;
use std::test::Fail;
use timetable::{BitSheet, Roll, Writable};

mod booked;
mod rules;
mod steps;

/// A sheet that counts so many steps, and a state that is not in order for it.
#[derive(Drop)]
struct Disorder<'a> {
    name: &'a str,
    setting: &'a Setting<'a>,
    count: usize,
    state: State<'a>,
    /// Whether the sheet belongs to the plan: what is not in order is then one of the rules, or the timetable.
    belongs: bool,
}

/// The task and the machine of a place are tested after the order, and so is whether there is a step.
const REFUSED: Told = &[
    (Place(9, 9), Refused(NotInOrder)),
    (Place(2, 0), Refused(NotInOrder)),
    (Try(9, 9), Refused(NotInOrder)),
    (TakeBack, Refused(NotInOrder)),
    (Fill, Refused(NotInOrder)),
    (Keep, NotAllowed),
];

/// A refused strike ends the trial as kept.
const REFUSED_ON_TRIAL: Told = &[(Strike, Refused(NotInOrder)), (Strike, NotAllowed)];

impl Disorder<'_> {
    /// Makes calls on a sheet, on trial or not; they are answered as expected and leave the state.
    fn check_calls<T: Writable>(
        &self,
        rt: &impl Abort,
        heap: Global,
        table: &mut T,
        is_on_trial: bool,
    ) -> Result<(), Fail> {
        let mut fixture = Fixture::with(heap, self.setting, &self.state, table)?;
        let told = if is_on_trial {
            REFUSED_ON_TRIAL
        } else {
            REFUSED
        };
        let mut asked = unanswered(heap, told)?;
        let sheet = sheet_of(heap, self.count, is_on_trial)?;
        let sheet = fixture.draw_on(sheet, table, &mut asked).hand_in();
        let belongs = sheet.belongs_to(&fixture.job, &fixture.plan);
        let is_left = self.state.is_held(&fixture.plan, table) && sheet.step_count() == self.count;
        assert_eq!(rt; first_wrong(&asked, told), None, "{}", self.name);
        assert!(rt; is_left && belongs == self.belongs, "{}", self.name);
        Ok(())
    }
}

/// Makes the calls of each case, with both timetables.
fn check_disorder(rt: &impl Abort, heap: Global, cases: &[Disorder]) -> Result<(), Fail> {
    for case in cases {
        case.check_calls(rt, heap, &mut Roll::new(heap, 16)?, false)?;
        case.check_calls(rt, heap, &mut BitSheet::new(heap, 1, 16)?, false)?;
        case.check_calls(rt, heap, &mut Roll::new(heap, 16)?, true)?;
    }
    Ok(())
}

/// The worked plan after two steps: it is in order, and each case differs from it in one thing.
const TWO_STEPS: State = State {
    tasks: &[(0, 0, 0), (1, 1, 8)],
    transfers: &[(0, &[4])],
    steps: &[0, 1],
    bookings: &[(0, 0, 4), (16, 4, 4), (1, 8, 3)],
};
