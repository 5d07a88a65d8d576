//! What a sink is handed, window by window.
ghost use Rattle.std.specs.Prelude.{◌≡◌, ◌<◌, ◌-◌, ◌^◌};

use super::both_ways::list_of;
use super::refused::boxed_machines;
use super::workers::AS_MANY_AS_CAN_BE;
use super::{ONE_CRASH, same_entries};
use crate::common::{NO_RUN, scenario_of};
use crate::comparisons::{NO_MEMORY, same};
use event_list::RunError;
use process_api::Entry;
use scenario::Scenario;
use std::alloc::Global;
use std::process::Abort;
use std::sync::atomic::{AtomicU64, Ordering};
use std::sync::{Arc, Wait};
use std::thread::Threads;
use windows::{OpenGate, Plan, Sink, run_windows_into};

/// Takes so many parts, and refuses each after them.
#[derive(Drop)]
struct Counting {
    entries: Vec<Entry>,
    // the length of each part that it was handed, taken or not, and how many inputs the machines had taken by then
    handed: Vec<(usize, u64)>,
    inputs: Arc<AtomicU64, Global>,
    most: usize,
    // whether it refuses because it can't write, and not because memory was refused
    writes: bool,
    failures: u64,
}

impl Sink for Counting {
    ghost use Rattle.std.specs.Prelude.{◌≡◌, ◌++◌};

    ghost took = { λ old part new. new.entries.items ≡ old.entries.items ++ part };

    ghost took_front = { λ old part new. new.entries.items ≡ old.entries.items };

    ghost failed = { λ s. s.failures };

    fn part(&mut self, mut entries: Vec<Entry>) -> Result<(), RunError> {
        let inputs = self.inputs.load(Ordering::SeqCst);
        self.handed.push((entries.len(), inputs))?;
        if self.handed.len() <= self.most {
            self.entries.append(&mut entries)?;
            return Ok(());
        }
        if self.writes {
            self.failures += 1;
            return Err(RunError::Write);
        }
        Err(RunError::Memory)
    }

    fn failures(&self) -> u64 {
        self.failures
    }
}

/// Whether a part has so many entries, and was handed on beside the next window, if there is one: the machines had
/// taken at least so many inputs, those of its own window and of the windows before, and at most so many, with the next
/// one's.
fn is_beside(handed: (usize, u64), part: (usize, u64, u64)) -> bool {
    let (entries, least, most) = part;
    handed.0 == entries && least <= handed.1 && handed.1 <= most
}

/// How many entries each window of 2 ticks has, and how many inputs the machines have taken as it and the next one
/// close: a process that has crashed takes none. So few entries are one part.
const PARTS: [(usize, u64, u64); 5] = [(2, 2, 5), (4, 5, 6), (2, 6, 7), (2, 7, 9), (2, 9, 9)];

/// How many entries the windows before each have, and all windows.
const BEFORE: [usize; 6] = [0, 2, 6, 8, 10, 12];

/// Two workers hand the parts of the windows of 2 ticks to a sink that takes so many, and refuses each after them: it
/// has the list's entries of these windows. It was handed the part after them too, where there is one, and then no
/// other.
fn takes_so_many<R: Abort + Threads + Wait + Sync>(
    rt: &R,
    alloc: Global,
    scenario: &Scenario,
    list: &[Entry],
    most: usize,
    refusal: RunError,
)
    requires { most < 6 }
{
    let plan = Plan::new(scenario, 2, 2).expect(rt, NO_RUN);
    let inputs = Arc::new(alloc, AtomicU64::new(0)).expect(rt, NO_MEMORY);
    let machines = boxed_machines(alloc, scenario, u64::MAX, &inputs);
    let machines = machines.expect(rt, NO_MEMORY);
    let mut sink = Counting {
        entries: Vec::new(alloc),
        handed: Vec::new(alloc),
        inputs,
        most,
        writes: refusal == RunError::Write,
        failures: 0,
    };
    let done = run_windows_into(rt, alloc, scenario, machines, &plan, &OpenGate, &mut sink);
    let refusal = if most < 5 { Some(refusal) } else { None };
    let failures = u64::from(refusal == Some(RunError::Write));
    let came = (most, done.err(), sink.failures());
    same(rt, &came, &(most, refusal, failures));
    let handed = most.saturating_add(1).min(5);
    same(rt, &sink.handed.len(), &handed);
    for (came, part) in sink.handed.iter().zip(PARTS) {
        assert!(rt; is_beside(*came, part));
    }
    let before = BEFORE[most];
    assert!(rt; before <= list.len());
    same_entries(rt, &sink.entries, &list[..before]);
}

/// The parts come one by one, in the order of the windows, each beside the next one. After a refused one none is handed
/// on, nor that one again, and the sink has the entries of the windows before it.
#[test]
fn parts_in_order(rt: HostRuntime) {
    let alloc = rt.alloc();
    let scenario = scenario_of(&rt, alloc, ONE_CRASH);
    let list = list_of(&rt, alloc, &scenario);
    for most in 0..6 {
        for refusal in [RunError::Memory, RunError::Write] {
            takes_so_many(&rt, alloc, &scenario, list.entries(), most, refusal);
        }
    }
}

/// The same of each part where 256 processes send to all at each tick. A part ends with a tick, as soon as it has 256
/// entries: the first two ticks have as many, and each later one has more than 65,000.
const LARGE_PARTS: [(usize, u64, u64); 6] = [
    (256, 512, 131_840),
    (256, 512, 131_840),
    (65_536, 131_840, 262_912),
    (65_792, 131_840, 262_912),
    (65_536, 262_912, 262_912),
    (65_536, 262_912, 262_912),
];

#[test]
fn large_parts_wait(rt: HostRuntime) {
    let alloc = rt.alloc();
    let scenario = scenario_of(&rt, alloc, AS_MANY_AS_CAN_BE);
    let plan = Plan::new(&scenario, 2, 2).expect(&rt, NO_RUN);
    let inputs = Arc::new(alloc, AtomicU64::new(0)).expect(&rt, NO_MEMORY);
    let machines = boxed_machines(alloc, &scenario, u64::MAX, &inputs);
    let machines = machines.expect(&rt, NO_MEMORY);
    let mut sink = Counting {
        entries: Vec::new(alloc),
        handed: Vec::new(alloc),
        inputs,
        most: 6,
        writes: false,
        failures: 0,
    };
    let done = run_windows_into(&rt, alloc, &scenario, machines, &plan, &OpenGate, &mut sink);
    assert!(rt; done.is_ok());
    same(&rt, &sink.handed.len(), &6);
    for (came, part) in sink.handed.iter().zip(LARGE_PARTS) {
        assert!(rt; is_beside(*came, part));
    }
}
