//! Lines and what they say.
use script::{HopWords, Line, LineError, RouteKind, TimetableKind, read_line, read_number};
use std::process::Abort;
use std::test::Fail;

fn says(rt: &(impl Abort + AllocGlobal), line: &[u8], expected: Line) {
    assert_eq!(rt; read_line(rt.alloc(), line), Ok(Some(expected)));
}

#[test]
fn understands(rt: HostRuntime) {
    says(&rt, b"\ttask 007 # seven\xff", Line::Task { work: 7 });
    says(
        &rt,
        b"edge 0 1 4294967295\r",
        Line::Edge {
            from: 0,
            to: 1,
            volume: 4294967295,
        },
    );
    says(&rt, b"routes slowness#x", Line::Routes(RouteKind::Slowness));
    says(&rt, b"machine 3", Line::Machine { speed: 3 });
    says(&rt, b"switch", Line::Switch);
    says(&rt, b"bookings 4096", Line::Bookings { most: 4096 });
    says(&rt, b"answer", Line::Answer);
    says(
        &rt,
        b"row 127 15 9",
        Line::Row {
            task: 127,
            station: 15,
            start: 9,
        },
    );
    says(&rt, b"mark", Line::Mark);
}

#[test]
fn understands_timetables(rt: HostRuntime) {
    let kinds: [(&[u8], TimetableKind); 5] = [
        (b"timetable roll", TimetableKind::Roll),
        (b"\ttimetable  roll # the list\r", TimetableKind::Roll),
        (b"timetable bits 0", TimetableKind::Bits(0)),
        (b"timetable bits 064", TimetableKind::Bits(64)),
        (b"timetable bits 1024#x", TimetableKind::Bits(1024)),
    ];
    for (line, kind) in kinds {
        says(&rt, line, Line::Timetable(kind));
    }
}

#[test]
fn understands_drawing(rt: HostRuntime) {
    says(
        &rt,
        b"place 01 4294967295 # any",
        Line::Place {
            task: 1,
            machine: 4294967295,
        },
    );
    says(
        &rt,
        b"try 128 16",
        Line::Try {
            task: 128,
            machine: 16,
        },
    );
    says(&rt, b"keep", Line::Keep);
    says(&rt, b"strike", Line::Strike);
    says(&rt, b"back", Line::Back);
    says(&rt, b"fill", Line::Fill);
    says(&rt, b"show", Line::Show);
    says(&rt, b"hand in", Line::HandIn);
    says(&rt, b"\thand\t in # done", Line::HandIn);
}

#[test]
fn understands_lists(rt: HostRuntime) -> Result<(), Fail> {
    let heap = rt.alloc();
    let stations = vec![in heap; 0, 1, 2]?;
    says(
        &rt,
        b"link 10 0 1 2",
        Line::Link {
            speed: 10,
            stations,
        },
    );
    let stations = vec![in heap;]?;
    says(
        &rt,
        b"link 10",
        Line::Link {
            speed: 10,
            stations,
        },
    );
    let hops = vec![in heap;
        HopWords {
            link: 1,
            station: 2
        },
    ]?;
    says(
        &rt,
        b"route 0 2 1 2",
        Line::Route {
            from: 0,
            to: 2,
            hops,
        },
    );
    let starts = vec![in heap; 8, 11]?;
    says(&rt, b"starts 223 8 11", Line::Starts { edge: 223, starts });
    Ok(())
}

#[test]
fn refuses(rt: HostRuntime) {
    let lines: [&[u8]; 55] = [
        b"task 4294967296",
        b"task -1",
        b"task 1_0",
        b"task",
        b"Task 1",
        b"switch 1",
        b"routes",
        b"routes hops hops",
        b"route 0 2 1",
        b"bookings 4097",
        b"row 128 0 0",
        b"row 0 16 0",
        b"starts 224 1",
        b"starts 0",
        b"starts 0 1 2 3 4 5 6 7 8 9 10 11 12 13 14 15 16",
        b"dance",
        b"edge 0 1",
        b"edge 0 1 2 3",
        b"machine x",
        b"link",
        b"link 1 0 x",
        b"route 0",
        b"route 0 2 1 x",
        b"routes fast",
        b"starts 0 1 x",
        b"mark 0",
        b"place 1",
        b"place 1 1 1",
        b"place 1 x",
        b"try",
        b"try 1 4294967296",
        b"keep 1",
        b"strike 1",
        b"back 1",
        b"fill 1",
        b"show 1",
        b"hand",
        b"hand on",
        b"hand in in",
        b"hand in 1",
        b"in",
        b"timetable",
        b"timetable list",
        b"timetable 64",
        b"timetable roll 1",
        b"timetable roll roll",
        b"timetable roll bits 1",
        b"timetable bits",
        b"timetable bits x",
        b"timetable bits 1 1",
        b"timetable bits 1 x",
        b"timetable bits 1025",
        b"timetable bits 4294967296",
        b"Timetable roll",
        b"roll",
    ];
    for line in lines {
        assert_eq!(rt; read_line(rt.alloc(), line), Err(LineError::NotUnderstood));
    }
}

#[test]
fn is_silent(rt: HostRuntime) {
    assert_eq!(rt; read_line(rt.alloc(), b" \t\r# task 1"), Ok(None));
}

#[test]
fn reads_numbers(rt: HostRuntime) {
    assert_eq!(rt; read_number(b"007"), Some(7));
    assert_eq!(rt; read_number(b"4294967295"), Some(4294967295));
    assert_eq!(rt; read_number(b"4294967296"), None);
    assert_eq!(rt; read_number(b"1_0"), None);
    assert_eq!(rt; read_number(b""), None);
}

#[test]
fn prints_errors(rt: HostRuntime) -> Result<(), Fail> {
    let heap = rt.alloc();
    assert_eq!(rt;
        LineError::NotUnderstood.to_string(heap)?.as_str(),
        "not understood"
    );
    assert_eq!(rt; LineError::Memory.to_string(heap)?.as_str(), "no memory");
    Ok(())
}

#[test]
fn reads_kinds_of_routes(rt: HostRuntime) {
    assert_eq!(rt;
        RouteKind::try_from(b"hops".as_slice()),
        Ok(RouteKind::Hops)
    );
    assert_eq!(rt;
        RouteKind::try_from(b"hop".as_slice()),
        Err(LineError::NotUnderstood)
    );
}
