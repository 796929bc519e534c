//! Tests of written routes, mostly over a line of three stations: link 0 joins 0 and 1, link 1 joins 1 and 2.
use crate::walked;
use model::{Link, Network, Refusal, Speed, Station, StationSet};
use routes::{Hop, Routes, WrittenRoutes};
use std::alloc::{AllocError, Global};
use std::test::Fail;

/// A row of a table, if there is a route: its links, each with the station it leads to.
type Row<'a> = Option<&'a [(usize, usize)]>;

/// The row from a station to itself.
const STAY: Row = Some(&[]);

/// A route for each pair on the line, but for 1 to 2, and a row that is not read.
const LINE_ROWS: [Row; 10] = [
    STAY,
    Some(&[(0, 1)]),
    Some(&[(0, 1), (1, 2)]),
    Some(&[(0, 0)]),
    STAY,
    None,
    Some(&[(1, 1), (0, 0)]),
    Some(&[(1, 1)]),
    STAY,
    Some(&[(9, 9)]),
];

fn hop_list(heap: Global, row: Row) -> Result<Option<Vec<Hop>>, AllocError> {
    row.map(|hops| {
        hops.iter()
            .map(|(link, station)| Hop {
                link: *link,
                station: *station,
            })
            .collect(heap)
    })
    .transpose()
}

fn table(heap: Global, rows: &[Row]) -> Result<Vec<Option<Vec<Hop>>>, AllocError> {
    rows.iter()
        .map(|row| hop_list(heap, *row))
        .try_collect(heap)
}

fn link(a: usize, b: usize) -> Link {
    Link {
        stations: StationSet::new().with(a).with(b),
        speed: Speed { rate: 10 },
    }
}

/// Three stations, `count` links that join 0 and 1, and then one that joins 1 and 2.
fn network(heap: Global, count: usize) -> Result<Network, Fail> {
    let machine = Station::Machine(Speed { rate: 5 });
    let stations = vec![in heap; machine, Station::Switch, machine]?;
    let mut links = vec![in heap; link(0, 1); count]?;
    links.push(link(1, 2))?;
    Ok(Network::new(stations, links)?)
}

/// The number and the detail of the refusal, if there is one.
fn refused(made: Result<WrittenRoutes, Refusal>) -> Option<(u32, usize)> {
    made.err()
        .map(|refusal| (refusal.number(), refusal.detail()))
}

/// What is answered to these rows on the line.
fn answer(heap: Global, rows: &[Row]) -> Result<Option<(u32, usize)>, Fail> {
    Ok(refused(WrittenRoutes::new(network(heap, 1)?, table(heap, rows)?)))
}

fn line_routes(heap: Global) -> Result<WrittenRoutes, Fail> {
    Ok(WrittenRoutes::new(network(heap, 1)?, table(heap, &LINE_ROWS)?)?)
}

#[test]
fn lengths(rt: HostRuntime) -> Result<(), Fail> {
    let routes = line_routes(rt.alloc())?;
    assert_eq!(rt; routes.network().station_count(), 3);
    assert_eq!(rt; routes.route_length(0, 2), Some(2));
    assert_eq!(rt; routes.route_length(1, 1), Some(0));
    assert_eq!(rt; routes.route_length(1, 2), None);
    assert_eq!(rt; routes.route_length(0, 3), None);
    assert_eq!(rt; routes.route_length(3, 0), None);
    assert_eq!(rt; walked(&routes, 0, 2), Some(2));
    Ok(())
}

#[test]
fn hops(rt: HostRuntime) -> Result<(), Fail> {
    let routes = line_routes(rt.alloc())?;
    let first = Hop {
        link: 0,
        station: 1,
    };
    let second = Hop {
        link: 0,
        station: 0,
    };
    assert_eq!(rt; routes.hop(0, 2, 0), Some(first));
    assert_eq!(rt; routes.hop(2, 0, 1), Some(second));
    assert_eq!(rt; routes.hop(0, 2, 2), None);
    assert_eq!(rt; routes.hop(1, 2, 0), None);
    assert_eq!(rt; routes.hop(0, 3, 0), None);
    Ok(())
}

#[test]
fn missing_rows(rt: HostRuntime) -> Result<(), Fail> {
    assert_eq!(rt; answer(rt.alloc(), &LINE_ROWS[..7])?, Some((9, 33)));
    assert_eq!(rt; answer(rt.alloc(), &[STAY, None])?, Some((9, 2)));
    Ok(())
}

#[test]
fn rows_to_itself(rt: HostRuntime) -> Result<(), Fail> {
    assert_eq!(rt; answer(rt.alloc(), &[None])?, Some((9, 0)));
    assert_eq!(rt;
        answer(rt.alloc(), &[Some(&[(0, 1), (0, 0)])])?,
        Some((9, 0))
    );
    Ok(())
}

#[test]
fn rows_to_another(rt: HostRuntime) -> Result<(), Fail> {
    let empty = STAY;
    let ends_elsewhere: Row = Some(&[(0, 1), (1, 2)]);
    let does_not_join: Row = Some(&[(1, 1)]);
    let no_such_link: Row = Some(&[(7, 1)]);
    let stays: Row = Some(&[(0, 1), (1, 1)]);
    let link_twice: Row = Some(&[(0, 1), (0, 0), (0, 1)]);
    for row in [
        empty,
        ends_elsewhere,
        does_not_join,
        no_such_link,
        stays,
        link_twice,
    ] {
        assert_eq!(rt; answer(rt.alloc(), &[STAY, row])?, Some((9, 1)));
    }
    Ok(())
}

/// From 0 to 1 and back and so on over the links 0 to 14, and then over link 15 to 2, cut after `count` hops.
fn zigzag(heap: Global, count: usize) -> Result<Option<Vec<Hop>>, AllocError> {
    let mut hops: Vec<Hop> = (0..15)
        .map(|link| Hop {
            link,
            station: (link + 1) % 2,
        })
        .collect(heap)?;
    hops.push(Hop {
        link: 15,
        station: 2,
    })?;
    hops.truncate(count);
    Ok(Some(hops))
}

#[test]
fn sixteen_hops(rt: HostRuntime) -> Result<(), Fail> {
    let mut rows = table(rt.alloc(), &[STAY])?;
    rows.push(zigzag(rt.alloc(), 15)?)?;
    rows.push(zigzag(rt.alloc(), 16)?)?;
    assert_eq!(rt;
        refused(WrittenRoutes::new(network(rt.alloc(), 15)?, rows)),
        Some((9, 2))
    );
    Ok(())
}
