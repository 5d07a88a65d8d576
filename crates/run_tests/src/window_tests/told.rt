//! Whom a gate is told of: seventy processes, by their own numbers, and seven workers, or one.

use super::both_ways::{list_of, run_by};
use super::same_entries;
use super::steals::wait_for;
use crate::common::scenario_of;
use crate::comparisons::{NO_MEMORY, same};
use process_api::Pid;
use std::alloc::{AllocError, Global};
use std::process::Abort;
use std::sync::Wait;
use std::sync::atomic::{AtomicU64, Ordering};
use windows::Gate;

/// Seventy processes that start, take each other's letters at tick 2, and beat and look at tick 101: each has an event
/// in all three windows that are opened, one of which is after tick 100.
const SEVENTY: &str = "version = 2
processes = 70
horizon = 103
lookahead = 2
seed = 1
algorithm = \"none\"
detector = { period = 101, check = 101, timeout = 101, grow = 1 }
link = { min = 2, max = 2 }
";

const PROCESSES: u16 = 70;

/// How often a held worker looks, and yields, before it is let go.
const TURNS: u32 = 2_000_000;

/// A gate that holds each worker in its first call of a window until all have made one.
#[derive(Drop)]
struct Hearing {
    // how many workers there are
    workers: u16,
    calls: AtomicU64,
    // how many calls told of each process, by its number
    told: Vec<AtomicU64>,
    // how many of a window's first calls, as many as there are workers, each worker made, by its number
    began: Vec<AtomicU64>,
    // how many calls were made under a number that no worker has
    by_nobody: AtomicU64,
}

/// A count of 0 for each number up to one.
fn counts_to(alloc: Global, last: u16) -> Result<Vec<AtomicU64>, AllocError> {
    let mut counts = Vec::new(alloc);
    for _ in 0..=last {
        counts.push(AtomicU64::new(0))?;
    }
    Ok(counts)
}

/// One more for a number.
fn count_one(counts: &[AtomicU64], number: u16) {
    if let Some(count) = counts.get(usize::from(number)) {
        count.fetch_add(1, Ordering::SeqCst);
    }
}

impl Gate for Hearing {
    fn entered<R: Wait>(&self, _rt: &R, worker: u16, pid: Pid) {
        let before = self.calls.fetch_add(1, Ordering::SeqCst);
        let in_window = before % u64::from(PROCESSES);
        count_one(&self.told, pid.number());
        if worker == 0 || self.workers < worker {
            self.by_nobody.fetch_add(1, Ordering::SeqCst);
        }
        let workers = u64::from(self.workers);
        if in_window < workers {
            count_one(&self.began, worker);
        }
        let all = (before - in_window).wrapping_add(workers);
        wait_for(&self.calls, all, TURNS);
    }
}

/// Each number from 1 was counted so often, and number 0 never.
fn all_are<R: Abort>(rt: &R, counts: &[AtomicU64], times: u64) {
    for (number, count) in counts.iter().enumerate() {
        let wanted = if number == 0 { 0 } else { times };
        let came = count.load(Ordering::SeqCst);
        same(rt, &(number, came), &(number, wanted));
    }
}

/// In each of three windows the gate is told of each process once, by its own number, and all workers are at work,
/// under the numbers from 1. The starter takes no process, and no call has another number.
#[test]
fn told_of_all(rt: HostRuntime) {
    let alloc = rt.alloc();
    let scenario = scenario_of(&rt, alloc, SEVENTY);
    let list = list_of(&rt, alloc, &scenario);
    for workers in [7, 1] {
        let gate = Hearing {
            workers,
            calls: AtomicU64::new(0),
            told: counts_to(alloc, PROCESSES).expect(&rt, NO_MEMORY),
            began: counts_to(alloc, workers).expect(&rt, NO_MEMORY),
            by_nobody: AtomicU64::new(0),
        };
        let windows = run_by(&rt, alloc, &scenario, u64::from(workers), &gate);
        same_entries(&rt, windows.entries(), list.entries());
        all_are(&rt, &gate.told, 3);
        all_are(&rt, &gate.began, 3);
        same(&rt, &gate.by_nobody.load(Ordering::SeqCst), &0);
    }
}
