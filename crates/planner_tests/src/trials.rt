//! Tasks that are placed on trial, and sheets that are handed in.
use crate::setting::WORKED;
use model::{Plan, Refusal};
use planner::opening::new_sheet;
use planner::sheet::{Drawing, OnTrial};
use std::test::Fail;
use timetable::{Askable, Roll};

/// What a try gives, where a refusal is not expected.
fn tried(answer: Result<(OnTrial, u64), (Drawing, Refusal)>) -> Result<(OnTrial, u64), Refusal> {
    answer.map_err(|(_, refusal)| refusal)
}

#[test]
fn a_sheet_that_is_handed_in_says_its_steps(rt: HostRuntime) -> Result<(), Fail> {
    let heap = rt.alloc();
    let (routes, job) = (WORKED.routes(heap)?, WORKED.job(heap)?);
    let (mut plan, mut table) = (Plan::new(), Roll::new(heap, 8)?);
    let mut sheet = new_sheet(&mut plan, &table)?;
    assert_eq!(rt; sheet.fill(&routes, &job, &mut plan, &mut table), Ok(7));
    let handed_in = sheet.hand_in();
    assert_eq!(rt; handed_in.step_count(), 3);
    assert_eq!(rt; table.count(), 3);
    Ok(())
}

#[test]
fn a_kept_try_is_among_the_steps_handed_in(rt: HostRuntime) -> Result<(), Fail> {
    let heap = rt.alloc();
    let (routes, job) = (WORKED.routes(heap)?, WORKED.job(heap)?);
    let (mut plan, mut table) = (Plan::new(), Roll::new(heap, 8)?);
    let sheet = new_sheet(&mut plan, &table)?;
    let (trial, _) = tried(sheet.try_place(&routes, &job, &mut plan, &mut table, 0, 1))?;
    assert_eq!(rt; trial.keep().hand_in().step_count(), 1);
    Ok(())
}
