//! Windows of worked runs: how many entries and letters each has, and that the order of the calls means nothing.

use super::both_ways::{list_of, stage_after};
use super::calls::call_window;
use super::{COORDINATORS, ONE_CRASH, is_same};
use crate::common::{NO_RUN, scenario_of};
use crate::comparisons::same;
use event_list::RunError;
use machines::Machine;
use process_api::Entry;
use scenario::Scenario;
use std::alloc::Global;
use std::process::Abort;
use std::sync::Wait;
use std::thread::Threads;
use windows::{Berth, Plan};

/// The berths of the window of so many ticks after so many others, where they were called in this order; its start and
/// its end, and how many letters were posted.
fn called<R: Abort + Threads + Wait + Sync>(
    rt: &R,
    alloc: Global,
    scenario: &Scenario,
    window: u32,
    before: usize,
    order: &[u16],
) -> (Vec<Berth<Machine>>, (u32, u32), usize) {
    let plan = Plan::new(scenario, 1, u64::from(window)).expect(rt, NO_RUN);
    let stage = stage_after(rt, alloc, scenario, &plan, before);
    let start = stage.start();
    let end = start.saturating_add(window).min(scenario.horizon());
    let called = call_window(rt, alloc, stage, end, u64::MAX, order);
    let (berths, letters) = called.expect(rt, NO_RUN);
    (berths, (start, end), letters)
}

/// How many entries berths have.
fn count(berths: &[Berth<Machine>]) -> usize {
    let mut entries: usize = 0;
    for berth in berths {
        entries = entries.saturating_add(berth.part().len());
    }
    entries
}

/// Of each window of 2 ticks its end, how many entries it has, and how many letters are posted in it. The letter that
/// is sent at tick 8 is due at the horizon, and is posted to nobody.
const WINDOWS: [(u32, usize, usize); 5] = [(2, 2, 2), (4, 4, 0), (6, 2, 1), (8, 2, 0), (10, 2, 0)];

#[test]
fn entries_and_letters(rt: HostRuntime) {
    let alloc = rt.alloc();
    let scenario = scenario_of(&rt, alloc, ONE_CRASH);
    for order in [[1, 2], [2, 1]] {
        for before in 0..WINDOWS.len() {
            let (berths, (_, end), letters) = called(&rt, alloc, &scenario, 2, before, &order);
            same(&rt, &(end, count(&berths), letters), &WINDOWS[before]);
        }
    }
}

/// After how many windows of 2 ticks one is called, where it ends, for how many entries each berth has room, and how it
/// is refused. The first window has 2 entries, one of each process; in the second each process has 2.
const ROOMS: [(usize, u32, u64, Option<RunError>); 6] = [
    (0, 2, 0, Some(RunError::Limit)),
    (0, 2, 1, None),
    (1, 4, 0, Some(RunError::Limit)),
    (1, 4, 1, Some(RunError::Limit)),
    (1, 4, 2, None),
    (1, 4, u64::MAX, None),
];

#[test]
fn no_room(rt: HostRuntime) {
    let alloc = rt.alloc();
    let scenario = scenario_of(&rt, alloc, ONE_CRASH);
    let plan = Plan::new(&scenario, 1, 2).expect(&rt, NO_RUN);
    for (before, end, room, refusal) in ROOMS {
        let stage = stage_after(&rt, alloc, &scenario, &plan, before);
        let called = call_window(&rt, alloc, stage, end, room, &[1, 2]);
        same(&rt, &(room, called.err()), &(room, refusal));
    }
}

/// Whether a berth has what the list has of its process from tick `start` to before tick `end`.
fn is_as_listed(berth: &Berth<Machine>, list: &[Entry], start: u32, end: u32) -> bool {
    let own = berth.pid();
    let mut count: usize = 0;
    for entry in list {
        let key = &entry.key;
        if key.receiver == own && start <= key.tick && key.tick < end {
            match berth.part().get(count) {
                Some(made) if is_same(made, entry) => count = count.saturating_add(1),
                _ => return false,
            }
        }
    }
    count == berth.part().len()
}

/// The berths are called in the given order, and whatever it is, each process does in each window of one tick or two
/// what the list has of it there, and in all windows what the list has.
#[test]
fn as_the_list(rt: HostRuntime) {
    let alloc = rt.alloc();
    let scenario = scenario_of(&rt, alloc, COORDINATORS);
    let list = list_of(&rt, alloc, &scenario);
    for window in [1, 2] {
        for order in [[1, 2, 3], [3, 2, 1], [2, 3, 1]] {
            let mut made: usize = 0;
            // after the last window none has an entry
            for before in 0..20 {
                let (berths, (start, end), _) = called(
                    &rt, alloc, &scenario, window, before, &order,
                );
                made = made.saturating_add(count(&berths));
                for (berth, number) in berths.iter().zip(order) {
                    same(&rt, &berth.pid().number(), &number);
                    assert!(rt; is_as_listed(berth, list.entries(), start, end));
                }
            }
            same(&rt, &made, &list.entries().len());
        }
    }
}
