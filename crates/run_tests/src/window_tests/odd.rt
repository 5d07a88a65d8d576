//! Odd schedules: gates that hold workers back until another is at work, each for so many turns at most.

use super::both_ways::{list_of, run_by};
use super::steals::wait_for;
use super::{COORDINATORS, same_entries};
use crate::common::scenario_of;
use crate::comparisons::same;
use process_api::Pid;
use std::sync::Wait;
use std::sync::atomic::{AtomicU64, Ordering};
use windows::Gate;

/// How often a worker that is held looks at the others before it goes on.
const TURNS: u32 = 100_000;

/// Holds two of three until the third has entered as often as they have.
#[derive(Drop)]
struct Holding {
    // the three are workers, or else processes
    by_worker: bool,
    // how often each of the three has entered
    first: AtomicU64,
    second: AtomicU64,
    third: AtomicU64,
}

impl Gate for Holding {
    fn entered<R: Wait>(&self, _rt: &R, worker: u16, pid: Pid) {
        let number = if self.by_worker { worker } else { pid.number() };
        let own = match number {
            1 => &self.first,
            2 => &self.second,
            _ => &self.third,
        };
        let times = own.fetch_add(1, Ordering::SeqCst).wrapping_add(1);
        wait_for(&self.third, times, TURNS);
    }
}

/// Processes 1 and 2 are held until process 3 has entered, and then all but the last worker until it has. Process 3 has
/// an event in each window, so nobody has to let go; the last worker may find nobody left to take.
#[test]
fn held_back(rt: HostRuntime) {
    let alloc = rt.alloc();
    let scenario = scenario_of(&rt, alloc, COORDINATORS);
    let list = list_of(&rt, alloc, &scenario);
    for by_worker in [false, true] {
        let gate = Holding {
            by_worker,
            first: AtomicU64::new(0),
            second: AtomicU64::new(0),
            third: AtomicU64::new(0),
        };
        let windows = run_by(&rt, alloc, &scenario, 3, &gate);
        same_entries(&rt, windows.entries(), list.entries());
        // six windows have an event, and process 1 has none in one of them
        let first = gate.first.load(Ordering::SeqCst);
        let second = gate.second.load(Ordering::SeqCst);
        let third = gate.third.load(Ordering::SeqCst);
        let all = first.wrapping_add(second).wrapping_add(third);
        same(&rt, &all, &17);
        if !by_worker {
            same(&rt, &(first, second), &(5, 6));
        }
    }
}
