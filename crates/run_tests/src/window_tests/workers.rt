//! Workers that are watched: which processes they take, in which order one of them takes them, and which of two
//! refusals comes first.

use super::both_ways::{list_of, run_by};
use super::refused::boxed_machines;
use super::{COORDINATORS, ONE_CRASH, same_entries};
use crate::common::{NO_RUN, scenario_of};
use crate::comparisons::{NO_MEMORY, same};
use event_list::RunError;
use process_api::Pid;
use std::sync::atomic::{AtomicU64, Ordering};
use std::sync::{Arc, Wait};
use windows::{Berth, Gate, OpenGate, Plan, Stage, both, run_window};

/// A gate that keeps what it sees.
#[derive(Drop)]
struct Watching {
    // the numbers of the processes, a digit each, in the order of the calls
    taken: AtomicU64,
    // the greatest number of a worker
    greatest: AtomicU64,
    // calls of the starter
    by_starter: AtomicU64,
}

impl Gate for Watching {
    fn entered<R: Wait>(&self, _rt: &R, worker: u16, pid: Pid) {
        let taken = self.taken.load(Ordering::SeqCst).wrapping_mul(10);
        let number = u64::from(pid.number());
        self.taken
            .store(taken.wrapping_add(number), Ordering::SeqCst);
        self.greatest.fetch_max(u64::from(worker), Ordering::SeqCst);
        if worker == 0 {
            self.by_starter.fetch_add(1, Ordering::SeqCst);
        }
    }
}

/// A single worker takes each process that has an event in the window, by rising number: all three but in the window
/// that starts at tick 6, in which the first has none. The starter takes nobody. A worker more than there are processes
/// isn't started.
#[test]
fn taken_by_workers(rt: HostRuntime) {
    let alloc = rt.alloc();
    let scenario = scenario_of(&rt, alloc, COORDINATORS);
    for (workers, greatest) in [(1, 1), (64, 3)] {
        let gate = Watching {
            taken: AtomicU64::new(0),
            greatest: AtomicU64::new(0),
            by_starter: AtomicU64::new(0),
        };
        run_by(&rt, alloc, &scenario, workers, &gate);
        assert!(rt; gate.greatest.load(Ordering::SeqCst) <= greatest);
        same(&rt, &gate.by_starter.load(Ordering::SeqCst), &0);
        if workers == 1 {
            let taken = gate.taken.load(Ordering::SeqCst);
            same(&rt, &taken, &12_312_312_323_123_123);
        }
    }
}

/// A window ends where the next one starts. A stage of boxed machines, and its berths, need no argument.
#[test]
fn first_window(rt: HostRuntime) {
    let alloc = rt.alloc();
    let scenario = scenario_of(&rt, alloc, ONE_CRASH);
    let plan = Plan::new(&scenario, 2, 2).expect(&rt, NO_RUN);
    let taken = Arc::new(alloc, AtomicU64::new(0)).expect(&rt, NO_MEMORY);
    let machines = boxed_machines(alloc, &scenario, u64::MAX, &taken);
    let machines = machines.expect(&rt, NO_MEMORY);
    let mut stage: Stage<'_> = Stage::open(alloc, &scenario, machines).expect(&rt, NO_RUN);
    same(&rt, &stage.start(), &0);
    assert!(rt; !stage.finished());
    let part = run_window(&rt, alloc, &mut stage, &plan, &OpenGate);
    let entries = part.expect(&rt, NO_RUN).len();
    let came = (entries, stage.start(), stage.finished());
    same(&rt, &came, &(2, 2, false));
    let berths: Vec<Berth> = stage.into_berths();
    same(&rt, &berths.len(), &2);
}

/// As many processes as there can be, each of which sends a letter to every other at each tick. The second of three
/// windows has 131,328 entries and posts 130,560 letters, which the third takes.
pub(super) const AS_MANY_AS_CAN_BE: &str = "version = 2
processes = 256
horizon = 6
lookahead = 2
seed = 1
algorithm = \"none\"
[detector]
period = 1
check = 3
timeout = 5
grow = 1
[link]
min = 2
max = 2
";

#[test]
fn sixty_four(rt: HostRuntime) {
    let alloc = rt.alloc();
    let scenario = scenario_of(&rt, alloc, AS_MANY_AS_CAN_BE);
    let list = list_of(&rt, alloc, &scenario);
    // 256 starts, 256 checks, 1,280 beats, and four letters for each pair
    same(&rt, &list.entries().len(), &262_912);
    for workers in [1, 2, 4, 64] {
        let windows = run_by(&rt, alloc, &scenario, workers, &OpenGate);
        same_entries(&rt, windows.entries(), list.entries());
    }
}

/// What two workers answer, 1 and 2 where they aren't refused, and what is answered of both: of refusals that of a
/// thread comes before that of memory, and this before that of a place.
const BOTH: [(
    Result<u8, RunError>,
    Result<u8, RunError>,
    Result<(u8, u8), RunError>,
); 9] = [
    (
        Err(RunError::Spawn),
        Err(RunError::Memory),
        Err(RunError::Spawn),
    ),
    (
        Err(RunError::Memory),
        Err(RunError::Spawn),
        Err(RunError::Spawn),
    ),
    (
        Err(RunError::Spawn),
        Err(RunError::Limit),
        Err(RunError::Spawn),
    ),
    (
        Err(RunError::Limit),
        Err(RunError::Spawn),
        Err(RunError::Spawn),
    ),
    (
        Err(RunError::Memory),
        Err(RunError::Limit),
        Err(RunError::Memory),
    ),
    (
        Err(RunError::Limit),
        Err(RunError::Memory),
        Err(RunError::Memory),
    ),
    (Ok(1), Err(RunError::Limit), Err(RunError::Limit)),
    (Err(RunError::Limit), Ok(2), Err(RunError::Limit)),
    (Ok(1), Ok(2), Ok((1, 2))),
];

#[test]
fn first_refusal(rt: HostRuntime) {
    for (left, right, answer) in BOTH {
        same(&rt, &both(left, right), &answer);
    }
}
