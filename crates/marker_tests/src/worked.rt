//! Three tasks on three machines in a line, and two tasks on one machine.
use marker::{Rule, Verdict, mark};
use model::plan::measures::{placed_count, plan_length};
use model::{
    Booking, Edge, Job, Link, Network, Placement, Plan, Speed, Station, StationSet, Tick,
    TransferRow,
};
use routes::{Hop, RoutedPlan, Routes, WrittenRoutes};
use std::alloc::Global;
use std::test::Fail;

fn machine(rate: u32) -> Station {
    Station::Machine(Speed { rate })
}

fn link(a: usize, b: usize, rate: u32) -> Link {
    Link {
        stations: StationSet::new().with(a).with(b),
        speed: Speed { rate },
    }
}

/// Machines of speeds 1, 2 and 1; link 0 joins 0 and 1 at speed 1, link 1 joins 1 and 2 at speed 2.
fn line(heap: Global) -> Result<WrittenRoutes, Fail> {
    let stations = vec![in heap; machine(1), machine(2), machine(1)]?;
    let links = vec![in heap; link(0, 1, 1), link(1, 2, 2)]?;
    let network = Network::new(stations, links)?;
    let first = Hop {
        link: 0,
        station: 1,
    };
    let second = Hop {
        link: 1,
        station: 2,
    };
    let rows = vec![in heap;
        Some(Vec::new(heap)),
        Some(vec![in heap; first]?),
        Some(vec![in heap; first, second]?),
        None,
        Some(Vec::new(heap)),
        None,
        None,
        None,
        Some(Vec::new(heap)),
    ]?;
    Ok(WrittenRoutes::new(network, rows)?)
}

/// Works 4, 6 and 3; edge 0 from task 0 to 1 of volume 4, edge 1 from task 0 to 2 of volume 6.
fn three_tasks(heap: Global) -> Result<Job, Fail> {
    let works = vec![in heap; 4, 6, 3]?;
    let to_one = Edge {
        from: 0,
        to: 1,
        volume: 4,
    };
    let to_two = Edge {
        from: 0,
        to: 2,
        volume: 6,
    };
    Ok(Job::new(works, vec![in heap; to_one, to_two]?)?)
}

/// Tasks by rising number, each on a station and from a start.
fn placed(tasks: &[(usize, Tick)]) -> Result<Plan, Fail> {
    let mut plan = Plan::new();
    for (t, (station, start)) in tasks.iter().enumerate() {
        plan.set_task(
            t,
            Placement {
                station: *station,
                start: *start,
            },
        )?;
    }
    Ok(plan)
}

/// Each task on its own machine, from 0, 8 and 14; edge 0 from 4, edge 1 from 8 and from `second`.
fn drawn(second: Tick) -> Result<Plan, Fail> {
    let mut plan = placed(&[(0, 0), (1, 8), (2, 14)])?;
    plan.set_transfer(0, TransferRow::of(&[4]))?;
    plan.set_transfer(1, TransferRow::of(&[8, second]))?;
    Ok(plan)
}

/// Two tasks on machine 0, from 0 and from `second`.
fn beside(second: Tick) -> Result<Plan, Fail> {
    placed(&[(0, 0), (0, second)])
}

#[test]
fn three_machines(rt: HostRuntime) -> Result<(), Fail> {
    let heap = rt.alloc();
    let routes = line(heap)?;
    let job = three_tasks(heap)?;
    let plan = drawn(11)?;
    assert_eq!(rt; mark(&routes, &job, &plan), Verdict::Lawful);
    assert_eq!(rt; placed_count(&plan), 3);
    assert_eq!(rt; plan_length(&job, routes.network(), &plan), 17);
    assert_eq!(rt;
        mark(&routes, &job, &drawn(10)?),
        Verdict::Broken(Rule::Causality, 1, 1)
    );
    assert_eq!(rt;
        mark(&routes, &job, &drawn(12)?),
        Verdict::Broken(Rule::Arrival, 1, 0)
    );
    Ok(())
}

/// File 1 goes over link 0 from 8, in 6 ticks, and over link 1 from 11, in 3.
#[test]
fn legs(rt: HostRuntime) -> Result<(), Fail> {
    let heap = rt.alloc();
    let routes = line(heap)?;
    let job = three_tasks(heap)?;
    let plan = drawn(11)?;
    let routed = RoutedPlan::new(&routes, &job, &plan);
    let second = Booking {
        resource: 17,
        start: 11,
        length: 3,
    };
    assert_eq!(rt; routed.leg(1, 1), Some(second));
    assert_eq!(rt; routed.leg(1, 2), None);
    assert_eq!(rt; routed.leg_count(1), 2);
    assert_eq!(rt; routed.leg_count(2), 0);
    assert_eq!(rt;
        job.edge(1).and_then(|edge| routed.way_length(edge)),
        Some(2)
    );
    Ok(())
}

#[test]
fn one_machine(rt: HostRuntime) -> Result<(), Fail> {
    let heap = rt.alloc();
    let routes = line(heap)?;
    let job = Job::new(vec![in heap; 5, 2]?, Vec::new(heap))?;
    assert_eq!(rt; mark(&routes, &job, &beside(5)?), Verdict::Lawful);
    assert_eq!(rt;
        mark(&routes, &job, &beside(4)?),
        Verdict::Broken(Rule::Machines, 0, 1)
    );
    Ok(())
}

#[test]
fn letters(rt: HostRuntime) -> Result<(), Fail> {
    let heap = rt.alloc();
    assert_eq!(rt; Rule::Causality.letter(), 'F');
    assert_eq!(rt; Rule::Arrival.letter(), 'G');
    assert_eq!(rt; Rule::Machines.letter(), 'H');
    assert_eq!(rt; Rule::Machines.to_string(heap)?.as_str(), "H");
    Ok(())
}
