//! Cases that were worked out by hand, on bit sheets: what happens where one word ends and the next begins.
use crate::layer::Layer;
use crate::worked::{refused, span};
use crate::{book_earliest, try_earliest};
use model::Tick;
use std::test::Fail;
use timetable::ask::is_free;
use timetable::{Askable, BitSheet, BitSheetError, Writable};

/// A question about a resource, from a tick on and for some ticks, and its answer.
type Case = (Tick, Tick, Option<Tick>);

fn answers(sheet: &BitSheet, resource: usize, cases: &[Case]) -> bool {
    cases.iter().all(|&(from, ticks, answer)| sheet.earliest(resource, from, ticks) == answer)
}

#[test]
fn one_word(rt: HostRuntime) -> Result<(), Fail> {
    let sheet = BitSheet::new(rt.alloc(), 1, 0)?;
    let cases = [
        (0, 64, Some(0)),
        (1, 64, None),
        (0, 65, None),
        (63, 1, Some(63)),
        (64, 1, None),
        (u32::MAX, u32::MAX, None),
        (0, 0, None),
    ];
    assert!(rt; answers(&sheet, 0, &cases));
    assert!(rt; answers(&sheet, 47, &cases));
    assert_eq!(rt; sheet.earliest(48, 0, 1), None);
    Ok(())
}

#[test]
fn last_resource(rt: HostRuntime) -> Result<(), Fail> {
    let mut sheet = BitSheet::new(rt.alloc(), 1, 2)?;
    sheet.book(span(47, 0, 64))?;
    assert!(rt; answers(&sheet, 47, &[(0, 1, None), (63, 1, None)]));
    assert!(rt; answers(&sheet, 46, &[(0, 64, Some(0))]));
    assert_eq!(rt; refused(sheet.book(span(48, 0, 1))), Some((18, 48)));
    assert_eq!(rt; sheet.take_back(), Ok(span(47, 0, 64)));
    assert!(rt; answers(&sheet, 47, &[(0, 64, Some(0))]));
    Ok(())
}

#[test]
fn before_a_boundary(rt: HostRuntime) -> Result<(), Fail> {
    let mut sheet = BitSheet::new(rt.alloc(), 2, 1)?;
    sheet.book(span(0, 0, 63))?;
    let cases = [
        (0, 1, Some(63)),
        (0, 65, Some(63)),
        (0, 66, None),
        (64, 64, Some(64)),
    ];
    assert!(rt; answers(&sheet, 0, &cases));
    Ok(())
}

#[test]
fn at_a_boundary(rt: HostRuntime) -> Result<(), Fail> {
    let mut sheet = BitSheet::new(rt.alloc(), 2, 1)?;
    sheet.book(span(0, 0, 64))?;
    let cases = [
        (0, 1, Some(64)),
        (0, 64, Some(64)),
        (0, 65, None),
        (127, 1, Some(127)),
    ];
    assert!(rt; answers(&sheet, 0, &cases));
    Ok(())
}

#[test]
fn behind_a_boundary(rt: HostRuntime) -> Result<(), Fail> {
    let mut sheet = BitSheet::new(rt.alloc(), 2, 1)?;
    sheet.book(span(0, 0, 65))?;
    assert!(rt;
        answers(
            &sheet,
            0,
            &[(0, 1, Some(65)), (0, 63, Some(65)), (0, 64, None)]
        )
    );
    assert!(rt; answers(&sheet, 1, &[(0, 128, Some(0))]));
    Ok(())
}

#[test]
fn over_whole_words(rt: HostRuntime) -> Result<(), Fail> {
    let mut sheet = BitSheet::new(rt.alloc(), 4, 2)?;
    sheet.book(span(5, 60, 140))?;
    let cases = [
        (0, 60, Some(0)),
        (0, 61, None),
        (1, 56, Some(1)),
        (5, 56, Some(200)),
        (59, 1, Some(59)),
        (60, 1, Some(200)),
        (199, 1, Some(200)),
        (201, 55, Some(201)),
        (201, 56, None),
    ];
    assert!(rt; answers(&sheet, 5, &cases));
    assert!(rt; answers(&sheet, 4, &[(0, 256, Some(0))]));
    assert!(rt; answers(&sheet, 6, &[(0, 256, Some(0))]));
    assert!(rt; sheet.take_back().is_ok());
    assert!(rt; answers(&sheet, 5, &[(0, 256, Some(0))]));
    Ok(())
}

#[test]
fn gaps_in_a_word(rt: HostRuntime) -> Result<(), Fail> {
    let mut sheet = BitSheet::new(rt.alloc(), 2, 4)?;
    for booking in [
        span(9, 3, 7),
        span(9, 14, 20),
        span(9, 39, 20),
        span(9, 70, 50),
    ] {
        sheet.book(booking)?;
    }
    let cases = [
        (0, 3, Some(0)),
        (0, 4, Some(10)),
        (0, 5, Some(34)),
        (35, 4, Some(35)),
        (36, 4, Some(59)),
        (0, 11, Some(59)),
        (60, 8, Some(60)),
        (63, 8, Some(120)),
        (0, 12, None),
    ];
    assert!(rt; answers(&sheet, 9, &cases));
    Ok(())
}

#[test]
fn neighbours_stay(rt: HostRuntime) -> Result<(), Fail> {
    let mut sheet = BitSheet::new(rt.alloc(), 2, 3)?;
    for booking in [span(7, 50, 10), span(7, 62, 10), span(7, 60, 2)] {
        sheet.book(booking)?;
    }
    assert!(rt; answers(&sheet, 7, &[(50, 1, Some(72))]));
    assert_eq!(rt; sheet.take_back(), Ok(span(7, 60, 2)));
    assert!(rt; answers(&sheet, 7, &[(50, 2, Some(60)), (50, 3, Some(72))]));
    assert!(rt; !is_free(&sheet, span(7, 59, 3)) && is_free(&sheet, span(7, 60, 2)));
    assert_eq!(rt; sheet.take_back(), Ok(span(7, 62, 10)));
    assert!(rt; answers(&sheet, 7, &[(50, 68, Some(60)), (0, 51, Some(60))]));
    Ok(())
}

#[test]
fn no_words(rt: HostRuntime) -> Result<(), Fail> {
    let mut sheet = BitSheet::new(rt.alloc(), 0, 2)?;
    assert_eq!(rt; (sheet.horizon(), sheet.most()), (0, 2));
    assert!(rt; answers(&sheet, 0, &[(0, 1, None), (0, 0, None)]));
    assert_eq!(rt; refused(sheet.book(span(3, 0, 1))), Some((18, 3)));
    assert_eq!(rt; refused(sheet.take_back()), Some((15, 0)));
    Ok(())
}

#[test]
fn sheet_sizes(rt: HostRuntime) -> Result<(), Fail> {
    let cases = [
        (1025, 1, BitSheetError::TooManyWords),
        (usize::MAX, 0, BitSheetError::TooManyWords),
        (1025, 4097, BitSheetError::TooManyWords),
        (1024, 4097, BitSheetError::TooMany),
    ];
    for (words, most, error) in cases {
        assert_eq!(rt; BitSheet::new(rt.alloc(), words, most).err(), Some(error));
    }
    Ok(())
}

#[test]
fn full_sheet(rt: HostRuntime) -> Result<(), Fail> {
    let mut sheet = BitSheet::new(rt.alloc(), 1024, 4096)?;
    assert_eq!(rt; sheet.horizon(), 65_536);
    for start in (0..4096).rev() {
        sheet.book(span(47, start * 16, 1))?;
    }
    assert_eq!(rt; sheet.booking(4095), Some(span(47, 0, 1)));
    assert_eq!(rt; refused(sheet.book(span(4, 0, 1))), Some((17, 1)));
    assert!(rt;
        answers(
            &sheet,
            47,
            &[(0, 15, Some(1)), (0, 16, None), (65_530, 6, Some(65_530))]
        )
    );
    Ok(())
}

#[test]
fn layers_over_a_sheet(rt: HostRuntime) -> Result<(), Fail> {
    let mut table = Layer::over(Layer::over(BitSheet::new(rt.alloc(), 1, 3)?));
    assert_eq!(rt; book_earliest(&mut table, 0, 0, 4), Ok(0));
    assert_eq!(rt; book_earliest(&mut table, 0, 0, 6), Ok(4));
    assert_eq!(rt; try_earliest(&mut table, 0, 0, 5), Ok(span(0, 10, 5)));
    assert_eq!(rt; refused(book_earliest(&mut table, 0, 0, 55)), Some((18, 0)));
    assert_eq!(rt; book_earliest(&mut table, 0, 0, 54), Ok(10));
    assert_eq!(rt; refused(book_earliest(&mut table, 1, 0, 1)), Some((17, 1)));
    Ok(())
}
