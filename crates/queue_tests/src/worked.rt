//! Queues that were worked through by hand.
use crate::arrival::Arrival;
use crate::line::{Line, next_in_line};
use crate::ready::{Ready, highest};
use crate::ticks::Ticks;
use crate::waiting::{Waiting, nearest};
use queue::Queue;

fn station(length: u32, station: u8) -> Waiting<Ticks> {
    let length = Ticks { count: length };
    Waiting { length, station }
}

#[test]
fn arrivals_leave_by_tick_and_then_by_edge(rt: HostRuntime) {
    let mut slots = [Arrival { tick: 0, edge: 0 }; 4];
    let mut queue = Queue::new(&mut slots);
    assert!(rt; queue.is_empty());
    assert!(rt; queue.push(Arrival { tick: 7, edge: 2 }).is_ok());
    assert!(rt; queue.push(Arrival { tick: 3, edge: 9 }).is_ok());
    assert!(rt; queue.push(Arrival { tick: 7, edge: 1 }).is_ok());
    assert_eq!(rt; queue.len(), 3);
    assert_eq!(rt; queue.peek().map(|a| a.edge), Some(9));
    assert_eq!(rt; queue.pop().map(|a| a.edge), Some(9));
    assert_eq!(rt; queue.pop().map(|a| a.edge), Some(1));
    assert_eq!(rt; queue.pop().map(|a| a.edge), Some(2));
    assert!(rt; queue.pop().is_none());
}

#[test]
fn a_full_queue_hands_the_element_back(rt: HostRuntime) {
    let mut slots = [Ready { level: 0, task: 0 }; 1];
    let mut queue = Queue::new(&mut slots);
    assert!(rt; queue.push(Ready { level: 4, task: 0 }).is_ok());
    assert_eq!(rt;
        queue
            .push(Ready { level: 9, task: 1 })
            .err()
            .map(|r| r.task),
        Some(1)
    );
    assert_eq!(rt; queue.pop().map(|r| r.task), Some(0));
}

#[test]
fn the_highest_level_is_first(rt: HostRuntime) {
    let mut slots = [Ready { level: 0, task: 0 }; 4];
    let tasks = [
        Ready { level: 2, task: 0 },
        Ready { level: 5, task: 7 },
        Ready { level: 1, task: 2 },
        Ready { level: 5, task: 3 },
    ];
    assert_eq!(rt; highest(&mut slots, &tasks).map(|r| r.task), Some(3));
    assert!(rt; highest(&mut slots, &[]).is_none());
}

#[test]
fn the_nearest_station_is_first(rt: HostRuntime) {
    let mut slots = [station(0, 0); 3];
    let stations = [station(8, 1), station(6, 4), station(6, 2)];
    assert_eq!(rt; nearest(&mut slots, &stations).map(|w| w.station), Some(2));
    assert!(rt; nearest(&mut slots[..2], &stations).is_none());
}

#[test]
fn a_struct_holds_a_queue(rt: HostRuntime) {
    let mut slots = [station(0, 0); 2];
    let mut line = Line::new(&mut slots);
    assert!(rt; line.queue.push(station(8, 1)).is_ok());
    assert!(rt; line.queue.push(station(6, 4)).is_ok());
    assert_eq!(rt; next_in_line(&mut line).map(|w| w.station), Some(4));
    assert_eq!(rt; line.next().map(|w| w.station), Some(1));
}
