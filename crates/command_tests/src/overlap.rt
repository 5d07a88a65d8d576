//! Two workers that must be at work at the same time, or the run fails, or one worker, over machines of the test's own,
//! in boxes.
ghost use Rattle.std.specs.Prelude.{◌≡◌, IfOk, map};
ghost use Rattle.{process_api.specs.Place.{numbers_to}, scenario_record.specs.Record.{opening_mind}};
ghost use Rattle.windows.specs.Plan.{IsPlanFor};

use crate::common::{NO_MEMORY, NO_RUN, changed, printed, same, scenario_of};
use crate::files::ONE_CRASH;
use machines::Machine;
use process_api::{Action, Pid, Process, StepInput};
use qos_report::{MemoryOutlet, Outlet, PrintChoice, bench_list, bench_windows, write_trace};
use scenario::Scenario;
use std::alloc::{AllocError, Global};
use std::marker::Sync;
use std::process::Abort;
use std::sync::atomic::{AtomicU64, AtomicUsize, Ordering};
use std::sync::{Arc, Wait};
use std::thread::{self, Threads};
use windows::{Gate, Plan, run_windows};

/// How many inputs each of the two processes has taken before each of the five windows: they take 1, 2, 1, 2 and 2.
const BEFORE: [u64; 5] = [0, 1, 3, 4, 6];

/// How many inputs each process takes in all.
const IN_ALL: u64 = 8;

/// How often a call that is held looks at the other process before it gives up.
const TURNS: u32 = 2_000_000;

/// A machine that counts its inputs.
#[derive(Drop)]
struct Counted {
    machine: Machine,
    taken: Arc<AtomicU64, Global>,
}

impl Process for Counted {
    ghost mind = { λ c. ⟦<Machine as Process>⟧.mind c.machine };

    ghost has_failed = { λ c. ⟦<Machine as Process>⟧.has_failed c.machine };

    fn pid(&self) -> Pid {
        self.machine.pid()
    }

    fn on_input(
        &mut self,
        now: u32,
        input: &StepInput,
        out: &mut Vec<Action>,
    ) -> Result<(), AllocError> {
        self.taken.fetch_add(1, Ordering::SeqCst);
        self.machine.on_input(now, input, out)
    }

    fn failed(&self) -> bool {
        self.machine.failed()
    }
}

/// A gate for two processes. Where there are two workers, it holds the first of the two calls in each window, until the
/// machine of the other process has taken an input of this window.
#[derive(Drop)]
struct Holding {
    // whether there are two workers
    holds: bool,
    calls: AtomicUsize,
    // calls at which the process that was taken had taken no input of the window
    kept: AtomicU64,
    // the sum of the workers' numbers
    workers: AtomicU64,
    // how many inputs each process has taken
    first: Arc<AtomicU64, Global>,
    second: Arc<AtomicU64, Global>,
}

impl Holding {
    fn new(alloc: Global, holds: bool) -> Result<Holding, AllocError> {
        Ok(Holding {
            holds,
            calls: AtomicUsize::new(0),
            kept: AtomicU64::new(0),
            workers: AtomicU64::new(0),
            first: Arc::new(alloc, AtomicU64::new(0))?,
            second: Arc::new(alloc, AtomicU64::new(0))?,
        })
    }

    /// How many calls there were, how many of them found their process as it was, and the sum of the workers' numbers.
    /// Then how many inputs each process has taken.
    fn counts(&self) -> (usize, u64, u64, (u64, u64)) {
        (
            self.calls.load(Ordering::SeqCst),
            self.kept.load(Ordering::SeqCst),
            self.workers.load(Ordering::SeqCst),
            (
                self.first.load(Ordering::SeqCst),
                self.second.load(Ordering::SeqCst),
            ),
        )
    }

    /// The inputs that process 1 has taken, or process 2.
    fn taken(&self, by_first: bool) -> &Arc<AtomicU64, Global> {
        if by_first { &self.first } else { &self.second }
    }
}

/// Waits until a process has taken more inputs than so many. Answers whether it has.
fn rises_above(taken: &AtomicU64, before: u64) -> bool {
    for _ in 0..TURNS {
        if taken.load(Ordering::SeqCst) > before {
            return true;
        }
        thread::yield_now();
    }
    false
}

impl Gate for Holding {
    fn entered<R: Wait>(&self, _rt: &R, worker: u16, pid: Pid) {
        let call = self.calls.fetch_add(1, Ordering::SeqCst);
        self.workers.fetch_add(u64::from(worker), Ordering::SeqCst);
        let Some(before) = BEFORE.get(call / 2) else {
            return;
        };
        let is_first = pid.number() == 1;
        let goes_on = !self.holds || call % 2 == 1 || rises_above(self.taken(!is_first), *before);
        let own = self.taken(is_first).load(Ordering::SeqCst);
        if goes_on && own == *before {
            self.kept.fetch_add(1, Ordering::SeqCst);
        }
    }
}

/// How a run is started: by the list, or by windows for its trace or for its texts.
#[derive(Clone, Copy)]
enum Start {
    Listed,
    Trace,
    Texts,
}

/// The trace's text of a run of these machines.
fn text_by<R: Abort + Threads + Wait + Sync>(
    rt: &R,
    alloc: Global,
    scenario: &Scenario,
    machines: Vec<Box<dyn Process>>,
    plan: &Plan,
    gate: &Holding,
    start: Start,
) -> MemoryOutlet
    requires machines { map mind machines.items ≡ map (opening_mind scenario.now) (numbers_to scenario.now.processes) }
    requires plan { IsPlanFor scenario.now plan.now }
{
    let mut outlet = MemoryOutlet::new(alloc);
    let print = PrintChoice::Trace;
    match start {
        Start::Listed => {
            let ran = bench_list(alloc, scenario, machines, print, &mut outlet);
            ran.expect(rt, NO_RUN);
        }
        Start::Trace => {
            let trace = run_windows(rt, alloc, scenario, machines, plan, gate);
            let written = write_trace(alloc, &trace.expect(rt, NO_RUN), &mut outlet);
            written.expect(rt, NO_RUN);
        }
        Start::Texts => {
            let out = &mut outlet;
            let ran = bench_windows(rt, alloc, scenario, machines, plan, gate, print, out);
            ran.expect(rt, NO_RUN);
        }
    }
    outlet
}

/// A machine that counts its inputs, in a box.
fn boxed(alloc: Global, counted: Counted) -> Result<Box<dyn Process>, AllocError>
    ensures { IfOk result (λ made. mind made ≡ ⟦<Machine as Process>⟧.mind counted.machine) }
{
    Ok(Box::new(alloc, counted)?)
}

/// The machines of both processes in boxes, of process 1 first, which count their inputs for the gate.
fn counted_machines(
    alloc: Global,
    scenario: &Scenario,
    gate: &Holding,
) -> Result<Vec<Box<dyn Process>>, AllocError>
    ensures { IfOk result (λ machines. map mind machines.items
        ≡ map (opening_mind scenario.now) (numbers_to scenario.now.processes)) }
{
    let mut machines = Vec::new(alloc);
    for before in 0..scenario.processes() {
        let counted = Counted {
            machine: Machine::open(alloc, &scenario.opening(Pid::after(before)))?,
            taken: Arc::try_clone(gate.taken(before == 0))?,
        };
        machines.push(boxed(alloc, counted)?)?;
    }
    Ok(machines)
}

/// The trace's text of a run of machines that the gate counts: by the list, or by this number of workers and windows of
/// 2 ticks.
fn text_of<R: Abort + Threads + Wait + Sync>(
    rt: &R,
    alloc: Global,
    scenario: &Scenario,
    workers: u64,
    gate: &Holding,
    start: Start,
) -> MemoryOutlet {
    let plan = Plan::new(scenario, workers, 2).expect(rt, NO_RUN);
    let machines = counted_machines(alloc, scenario, gate).expect(rt, NO_MEMORY);
    text_by(rt, alloc, scenario, machines, &plan, gate, start)
}

/// Where the crash is at the horizon, each of the ten calls finds its process as it was before the window. Of two
/// workers each makes one of the two calls in a window, and five calls wait for the other process. A single worker
/// makes both. The text is the one that the list gives, also of these machines.
#[test]
fn overlaps(rt: HostRuntime) {
    let alloc = rt.alloc();
    let file = changed(&rt, alloc, ONE_CRASH, "at = 3", "at = 10");
    let listed = printed(&rt, alloc, "fdbench list - --print trace", &file);
    let scenario = scenario_of(&rt, alloc, &file);
    for (start, by, calls) in [
        (Start::Listed, 2, (0, 0, 0)),
        (Start::Trace, 2, (10, 10, 15)),
        (Start::Texts, 2, (10, 10, 15)),
        (Start::Trace, 1, (10, 10, 10)),
    ] {
        let gate = Holding::new(alloc, by == 2).expect(&rt, NO_MEMORY);
        let outlet = text_of(&rt, alloc, &scenario, by, &gate, start);
        let (count, kept, workers) = calls;
        same(
            &rt,
            &gate.counts(),
            &(count, kept, workers, (IN_ALL, IN_ALL)),
        );
        same(&rt, &outlet.bytes(), &listed.as_bytes());
    }
}
