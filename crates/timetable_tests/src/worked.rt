//! Cases that were worked out by hand, on a roll and on a layer over it.
use crate::layer::Layer;
use crate::{book_earliest, room_left, try_earliest, twice_horizon};
use model::{Booking, Refusal};
use std::alloc::Global;
use std::test::Fail;
use timetable::ask::is_free;
use timetable::{Askable, Roll, RollError, Writable};

/// The number and the detail of the refusal, if there is one.
pub(crate) fn refused<T: Drop>(outcome: Result<T, Refusal>) -> Option<(u32, usize)> {
    outcome
        .err()
        .map(|refusal| (refusal.number(), refusal.detail()))
}

pub(crate) fn span(resource: usize, start: u32, length: u32) -> Booking {
    Booking {
        resource,
        start,
        length,
    }
}

/// Resource 0 is taken from 10 to 14 and from 0 to 4, and resource 1 from 4 to 64.
fn busy(heap: Global) -> Result<Roll, Fail> {
    let mut table = Roll::new(heap, 3)?;
    table.book(span(0, 10, 4))?;
    table.book(span(1, 4, 60))?;
    table.book(span(0, 0, 4))?;
    Ok(table)
}

#[test]
fn gaps(rt: HostRuntime) -> Result<(), Fail> {
    let table = busy(rt.alloc())?;
    assert_eq!(rt; table.count(), 3);
    assert_eq!(rt; table.earliest(0, 0, 6), Some(4));
    assert_eq!(rt; table.earliest(0, 0, 7), Some(14));
    assert_eq!(rt; table.earliest(0, 5, 5), Some(5));
    assert_eq!(rt; table.earliest(0, 5, 6), Some(14));
    assert_eq!(rt; table.earliest(0, 3, 1), Some(4));
    assert_eq!(rt; table.earliest(1, 0, 4), Some(0));
    assert_eq!(rt; table.earliest(1, 0, 5), Some(64));
    assert_eq!(rt; table.earliest(2, 7, 100), Some(7));
    Ok(())
}

#[test]
fn horizon(rt: HostRuntime) -> Result<(), Fail> {
    let table = Roll::new(rt.alloc(), 1)?;
    assert_eq!(rt; table.horizon(), 2_000_000_000);
    assert_eq!(rt; twice_horizon(&table), 4_000_000_000);
    assert_eq!(rt; table.earliest(0, 0, 2_000_000_000), Some(0));
    assert_eq!(rt; table.earliest(0, 1, 2_000_000_000), None);
    assert_eq!(rt; table.earliest(47, 1_999_999_999, 1), Some(1_999_999_999));
    assert_eq!(rt; table.earliest(47, 2_000_000_000, 1), None);
    Ok(())
}

#[test]
fn any_numbers(rt: HostRuntime) -> Result<(), Fail> {
    let mut table = busy(rt.alloc())?;
    let last = u32::MAX;
    assert_eq!(rt; table.earliest(200, 0, 1), None);
    assert_eq!(rt; table.earliest(48, 0, 1), None);
    assert_eq!(rt; table.earliest(usize::MAX, last, last), None);
    assert_eq!(rt; table.earliest(0, 0, 0), None);
    assert_eq!(rt; table.earliest(0, last, 1), None);
    assert_eq!(rt; table.earliest(0, last, last), None);
    assert_eq!(rt; table.booking(usize::MAX), None);
    assert!(rt; table.take_back().is_ok());
    assert_eq!(rt; refused(table.book(span(200, last, 0))), Some((18, 200)));
    assert_eq!(rt; refused(table.book(span(0, last, last))), Some((18, 0)));
    assert_eq!(rt; table.count(), 2);
    Ok(())
}

#[test]
fn in_the_order_made(rt: HostRuntime) -> Result<(), Fail> {
    let table = busy(rt.alloc())?;
    assert_eq!(rt; table.booking(0), Some(span(0, 10, 4)));
    assert_eq!(rt; table.booking(2), Some(span(0, 0, 4)));
    assert_eq!(rt; table.booking(3), None);
    Ok(())
}

#[test]
fn refusals(rt: HostRuntime) -> Result<(), Fail> {
    let mut table = Roll::new(rt.alloc(), 2)?;
    assert_eq!(rt; refused(table.take_back()), Some((15, 0)));
    assert_eq!(rt; refused(table.book(span(5, 10, 4))), None);
    assert_eq!(rt; refused(table.book(span(5, 13, 1))), Some((18, 5)));
    assert_eq!(rt; refused(table.book(span(5, 9, 2))), Some((18, 5)));
    assert_eq!(rt; refused(table.book(span(5, 14, 0))), Some((18, 5)));
    assert_eq!(rt; table.count(), 1);
    assert!(rt; is_free(&table, span(5, 14, 1)) && !is_free(&table, span(5, 13, 1)));
    assert_eq!(rt; refused(table.book(span(5, 14, 1))), None);
    assert_eq!(rt; refused(table.book(span(5, 10, 4))), Some((17, 1)));
    assert_eq!(rt; table.count(), 2);
    Ok(())
}

#[test]
fn taken_back(rt: HostRuntime) -> Result<(), Fail> {
    let mut table = busy(rt.alloc())?;
    assert_eq!(rt; table.take_back(), Ok(span(0, 0, 4)));
    assert_eq!(rt; table.count(), 2);
    assert_eq!(rt; table.earliest(0, 0, 6), Some(0));
    assert_eq!(rt; table.earliest(0, 0, 11), Some(14));
    Ok(())
}

#[test]
fn sizes(rt: HostRuntime) -> Result<(), Fail> {
    assert_eq!(rt; Roll::new(rt.alloc(), 4097).err(), Some(RollError::TooMany));
    assert_eq!(rt;
        Roll::new(rt.alloc(), usize::MAX).err(),
        Some(RollError::TooMany)
    );
    let mut none = Roll::new(rt.alloc(), 0)?;
    assert_eq!(rt; none.most(), 0);
    assert_eq!(rt; refused(none.book(span(0, 0, 1))), Some((17, 1)));
    let mut most = Roll::new(rt.alloc(), 4096)?;
    for start in (0..4096).rev() {
        assert_eq!(rt; refused(most.book(span(3, start, 1))), None);
    }
    assert_eq!(rt; refused(most.book(span(4, 0, 1))), Some((17, 1)));
    assert_eq!(rt; most.earliest(3, 0, 1), Some(4096));
    Ok(())
}

#[test]
fn two_layers(rt: HostRuntime) -> Result<(), Fail> {
    let mut table = Layer::over(Layer::over(Roll::new(rt.alloc(), 4)?));
    assert_eq!(rt; book_earliest(&mut table, 0, 0, 4), Ok(0));
    assert_eq!(rt; book_earliest(&mut table, 0, 0, 6), Ok(4));
    assert_eq!(rt; book_earliest(&mut table, 0, 1, 2), Ok(10));
    assert_eq!(rt; try_earliest(&mut table, 0, 0, 5), Ok(span(0, 12, 5)));
    assert_eq!(rt; room_left(&table), 1);
    assert_eq!(rt;
        refused(book_earliest(&mut table, 0, 0, 2_000_000_000)),
        Some((18, 0))
    );
    assert_eq!(rt; book_earliest(&mut table, 16, 0, 2_000_000_000), Ok(0));
    assert_eq!(rt; refused(book_earliest(&mut table, 1, 0, 1)), Some((17, 1)));
    assert_eq!(rt; room_left(&table), 0);
    Ok(())
}
