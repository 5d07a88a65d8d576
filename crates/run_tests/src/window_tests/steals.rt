//! Workers that are held, so that others take what is theirs.

use super::both_ways::{list_of, run_by};
use super::{COORDINATORS, SIX, same_entries};
use crate::common::scenario_of;
use crate::comparisons::same;
use process_api::Pid;
use std::sync::Wait;
use std::sync::atomic::{AtomicU64, Ordering};
use std::thread;
use windows::Gate;

/// How often a held worker looks, and yields, before it is let go.
const TURNS: u32 = 2_000_000;

/// Waits until a count has come to so many, or for so many turns.
pub fn wait_for(count: &AtomicU64, least: u64, turns: u32) {
    for _ in 0..turns {
        if count.load(Ordering::SeqCst) >= least {
            return;
        }
        thread::yield_now();
    }
}

/// A gate that holds worker 1 in its first call until worker 2 has made two.
#[derive(Drop)]
struct Holding {
    // how many calls each has made
    by_first: AtomicU64,
    by_second: AtomicU64,
    // whether worker 1 was let go before
    early: AtomicU64,
}

impl Gate for Holding {
    fn entered<R: Wait>(&self, _rt: &R, worker: u16, _pid: Pid) {
        if worker != 1 {
            self.by_second.fetch_add(1, Ordering::SeqCst);
        } else if self.by_first.fetch_add(1, Ordering::SeqCst) == 0 {
            wait_for(&self.by_second, 2, TURNS);
            if self.by_second.load(Ordering::SeqCst) < 2 {
                self.early.store(1, Ordering::SeqCst);
            }
        }
    }
}

/// Three processes and two workers: the first and the third process are dealt to worker 1. While that is held with the
/// one, worker 2 takes its own and then steals the other.
#[test]
fn stolen_from_a_held_worker(rt: HostRuntime) {
    let alloc = rt.alloc();
    let scenario = scenario_of(&rt, alloc, COORDINATORS);
    let list = list_of(&rt, alloc, &scenario);
    let gate = Holding {
        by_first: AtomicU64::new(0),
        by_second: AtomicU64::new(0),
        early: AtomicU64::new(0),
    };
    let windows = run_by(&rt, alloc, &scenario, 2, &gate);
    same(&rt, &gate.early.load(Ordering::SeqCst), &0);
    assert!(rt; gate.by_second.load(Ordering::SeqCst) >= 2);
    same_entries(&rt, windows.entries(), list.entries());
}

/// A gate that holds worker 1 in its first call until the two others have made one each, and these until worker 1 has
/// made four.
#[derive(Drop)]
struct Circle {
    by_first: AtomicU64,
    by_others: AtomicU64,
    // the numbers of the processes that worker 1 took, a digit each
    taken: AtomicU64,
}

impl Gate for Circle {
    fn entered<R: Wait>(&self, _rt: &R, worker: u16, pid: Pid) {
        if worker != 1 {
            self.by_others.fetch_add(1, Ordering::SeqCst);
            wait_for(&self.by_first, 4, TURNS);
            return;
        }
        let taken = self.taken.load(Ordering::SeqCst).wrapping_mul(10);
        let number = u64::from(pid.number());
        self.taken
            .store(taken.wrapping_add(number), Ordering::SeqCst);
        if self.by_first.fetch_add(1, Ordering::SeqCst) == 0 {
            wait_for(&self.by_others, 2, TURNS);
        }
    }
}

/// Six processes and three workers, of which two are held with one of their two each: the other one takes its own, then
/// what the next one has left, and then what the one after that has.
#[test]
fn stolen_round_the_circle(rt: HostRuntime) {
    let alloc = rt.alloc();
    let scenario = scenario_of(&rt, alloc, SIX);
    let gate = Circle {
        by_first: AtomicU64::new(0),
        by_others: AtomicU64::new(0),
        taken: AtomicU64::new(0),
    };
    run_by(&rt, alloc, &scenario, 3, &gate);
    same(&rt, &gate.taken.load(Ordering::SeqCst), &1_456);
}

/// A gate that holds each of so many workers in its first call until all have made one.
#[derive(Drop)]
struct Meeting {
    workers: u64,
    calls: AtomicU64,
    // how many of them began with the process that has their number
    own: AtomicU64,
}

impl Gate for Meeting {
    fn entered<R: Wait>(&self, _rt: &R, worker: u16, pid: Pid) {
        let before = self.calls.fetch_add(1, Ordering::SeqCst);
        if before < self.workers && worker == pid.number() {
            self.own.fetch_add(1, Ordering::SeqCst);
        }
        wait_for(&self.calls, self.workers, TURNS);
    }
}

/// As many workers as the plan has are at work at once, as none is let go before. Each begins with its own deque, and
/// the processes are dealt by rising number: while nobody steals, worker 1 takes process 1, and worker 2 process 2.
#[test]
fn dealt_by_rising_number(rt: HostRuntime) {
    let alloc = rt.alloc();
    let scenario = scenario_of(&rt, alloc, SIX);
    for workers in [2, 4] {
        let gate = Meeting {
            workers,
            calls: AtomicU64::new(0),
            own: AtomicU64::new(0),
        };
        run_by(&rt, alloc, &scenario, workers, &gate);
        same(&rt, &gate.own.load(Ordering::SeqCst), &workers);
    }
}
