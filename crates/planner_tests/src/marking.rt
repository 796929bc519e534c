//! Sheets that are handed in and marked.
use crate::ask::Ask::Place;
use crate::fixture::Fixture;
use crate::setting::WORKED;
use certificate::{Slip, mark};
use marker::Rule;
use model::{Placement, Plan, Refusal};
use planner::sheet::HandedIn;
use std::alloc::Global;
use std::test::Fail;
use timetable::Roll;

/// The worked plan, with tasks 0, 1 and 2 on machines 0, 1 and 2, and the sheet that it was drawn on.
fn drawn(heap: Global) -> Result<(Fixture, HandedIn), Fail> {
    let (mut fixture, mut table) = (Fixture::new(heap, &WORKED)?, Roll::new(heap, 8)?);
    let mut asked = [
        Place(0, 0).unanswered(),
        Place(1, 1).unanswered(),
        Place(2, 2).unanswered(),
    ];
    let sheet = fixture.draw(&mut table, &mut asked)?;
    Ok((fixture, sheet.keep().hand_in()))
}

/// Marks a sheet that is not expected to come back.
fn slip(sheet: HandedIn, fixture: &Fixture) -> Result<Slip, Refusal> {
    mark(sheet, &fixture.routes, &fixture.job, &fixture.plan).map_err(|(_, refusal)| refusal)
}

/// The slip of the worked plan.
const LAWFUL: Slip = Slip::Lawful {
    placed: 3,
    length: 17,
};

#[test]
fn a_drawn_plan_is_given_a_lawful_slip(rt: HostRuntime) -> Result<(), Fail> {
    let (fixture, sheet) = drawn(rt.alloc())?;
    assert_eq!(rt; sheet.step_count(), 3);
    assert!(rt; sheet.belongs_to(&fixture.job, &fixture.plan));
    assert_eq!(rt; slip(sheet, &fixture), Ok(LAWFUL));
    Ok(())
}

#[test]
fn a_changed_start_breaks_a_rule(rt: HostRuntime) -> Result<(), Fail> {
    let (mut fixture, sheet) = drawn(rt.alloc())?;
    // The file of edge 1 comes at 14.
    let early = Placement {
        station: 2,
        start: 13,
    };
    fixture.plan.set_task(2, early)?;
    assert_eq!(rt;
        slip(sheet, &fixture),
        Ok(Slip::Broken(Rule::Arrival, 1, 0))
    );
    Ok(())
}

#[test]
fn a_sheet_of_another_plan_comes_back(rt: HostRuntime) -> Result<(), Fail> {
    let (fixture, sheet) = drawn(rt.alloc())?;
    let marked = mark(sheet, &fixture.routes, &fixture.job, &Plan::new());
    assert!(rt; marked.is_err());
    if let Err((sheet, refusal)) = marked {
        assert_eq!(rt; (sheet.step_count(), refusal), (3, Refusal::NotInOrder));
        assert_eq!(rt; slip(sheet, &fixture), Ok(LAWFUL));
    }
    Ok(())
}

#[test]
fn a_task_that_is_no_step_belongs_to_no_sheet(rt: HostRuntime) -> Result<(), Fail> {
    let (mut fixture, mut table) = (
        Fixture::new(rt.alloc(), &WORKED)?,
        Roll::new(rt.alloc(), 8)?,
    );
    let sheet = fixture.draw(&mut table, &mut [])?.keep().hand_in();
    assert!(rt; sheet.belongs_to(&fixture.job, &fixture.plan));
    let placement = Placement {
        station: 0,
        start: 0,
    };
    fixture.plan.set_task(0, placement)?;
    assert!(rt; !sheet.belongs_to(&fixture.job, &fixture.plan));
    assert_eq!(rt; slip(sheet, &fixture), Err(Refusal::NotInOrder));
    Ok(())
}
