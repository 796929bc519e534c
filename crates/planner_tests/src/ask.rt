//! Calls on a sheet, in a short form.
use crate::fixture::Fixture;
use crate::setting::APART;
use certificate::{Answer, Asked, Call, Sheet};
use std::alloc::{AllocError, Global};
use std::test::Fail;
use timetable::Roll;

/// A call on a sheet; of place and try the task and the machine.
#[derive(Clone, Copy)]
pub enum Ask {
    Place(usize, usize),
    Try(usize, usize),
    Keep,
    Strike,
    TakeBack,
    Fill,
}

impl Ask {
    /// The call, not answered yet.
    pub fn unanswered(self) -> Asked {
        let call = match self {
            Ask::Place(task, machine) => Call::Place { task, machine },
            Ask::Try(task, machine) => Call::Try { task, machine },
            Ask::Keep => Call::Keep,
            Ask::Strike => Call::Strike,
            Ask::TakeBack => Call::TakeBack,
            Ask::Fill => Call::Fill,
        };
        Asked { call, answer: None }
    }
}

/// A list of calls, each with the answer that is expected.
pub type Told<'a> = &'a [(Ask, Answer)];

/// The calls of a list, not answered yet.
pub fn unanswered(heap: Global, told: Told) -> Result<Vec<Asked>, AllocError> {
    told.iter().map(|(ask, _)| ask.unanswered()).collect(heap)
}

/// The place of the first call that is not answered as expected.
pub fn first_wrong(asked: &[Asked], told: Told) -> Option<usize> {
    asked
        .iter()
        .zip(told)
        .position(|(asked, (_, answer))| asked.answer != Some(*answer))
}

/// A sheet that counts so many steps, at most 3, of which the last may be on trial. It drew on a plan of its own, of two
/// machines and three tasks that feed nothing.
pub fn sheet_of(heap: Global, count: usize, is_on_trial: bool) -> Result<Sheet, Fail> {
    let (mut fixture, mut table) = (Fixture::new(heap, &APART)?, Roll::new(heap, 3)?);
    let last = if is_on_trial {
        Ask::Try(2, 0)
    } else {
        Ask::Place(2, 0)
    };
    let calls = [Ask::Place(0, 0), Ask::Place(1, 0), last];
    let mut asked = calls.map(|ask| ask.unanswered());
    let first = asked.len().checked_sub(count).ok_or("too many steps")?;
    Ok(fixture.draw(&mut table, &mut asked[first..])?)
}
