//! Runs in which each input in turn is refused by the machine that takes it.
ghost use Rattle.std.specs.Prelude.{◌≡◌, IfOk, map};
ghost use Rattle.{process_api.specs.Place.{numbers_to}, scenario_record.specs.Record.{opening_mind}};

use super::{ONE_CRASH, same_entries};
use crate::common::{NO_RUN, scenario_of};
use crate::comparisons::{NO_MEMORY, same};
use event_list::{RunError, run_list};
use machines::Machine;
use process_api::{Action, Pid, Process, StepInput};
use scenario::Scenario;
use std::alloc::{AllocError, Global};
use std::sync::Arc;
use std::sync::atomic::{AtomicU64, Ordering};
use windows::{OpenGate, Plan, run_windows};

/// A machine that is refused memory where all machines together have taken so many inputs.
#[derive(Drop)]
struct Refused {
    machine: Machine,
    has_failed: bool,
    limit: u64,
    taken: Arc<AtomicU64, Global>,
}

impl Process for Refused {
    ghost mind = { λ r. ⟦<Machine as Process>⟧.mind r.machine };

    ghost has_failed = { λ r. r.has_failed };

    fn pid(&self) -> Pid {
        self.machine.pid()
    }

    fn on_input(
        &mut self,
        now: u32,
        input: &StepInput,
        out: &mut Vec<Action>,
    ) -> Result<(), AllocError> {
        if self.has_failed {
            return Err(AllocError);
        }
        self.has_failed = true;
        if self.taken.fetch_add(1, Ordering::SeqCst) >= self.limit {
            return Err(AllocError);
        }
        self.machine.on_input(now, input, out)?;
        self.has_failed = false;
        Ok(())
    }

    fn failed(&self) -> bool {
        self.has_failed
    }
}

/// One of them in a box.
fn boxed(alloc: Global, refused: Refused) -> Result<Box<dyn Process>, AllocError>
    ensures { IfOk result (λ made. mind made ≡ ⟦<Machine as Process>⟧.mind refused.machine) }
{
    Ok(Box::new(alloc, refused)?)
}

/// The machines of all processes in boxes, of process 1 first: refused at the input after so many, and they count those
/// that they take.
pub fn boxed_machines(
    alloc: Global,
    scenario: &Scenario,
    limit: u64,
    taken: &Arc<AtomicU64, Global>,
) -> Result<Vec<Box<dyn Process>>, AllocError>
    ensures { IfOk result (λ machines. map mind machines.items
        ≡ map (opening_mind scenario.now) (numbers_to scenario.now.processes)) }
{
    let mut machines = Vec::new(alloc);
    for before in 0..scenario.processes() {
        let refused = Refused {
            machine: Machine::open(alloc, &scenario.opening(Pid::after(before)))?,
            has_failed: false,
            limit,
            taken: Arc::try_clone(taken)?,
        };
        machines.push(boxed(alloc, refused)?)?;
    }
    Ok(machines)
}

/// How many inputs the two processes take: of the 12 entries 3 are of a process that has crashed.
const INPUTS: u64 = 9;

/// Where any one input is refused, the list and two workers by windows of 2 ticks answer `Memory`; where none is, both
/// have the same trace.
#[test]
fn each_input(rt: HostRuntime) {
    let alloc = rt.alloc();
    let scenario = scenario_of(&rt, alloc, ONE_CRASH);
    let plan = Plan::new(&scenario, 2, 2).expect(&rt, NO_RUN);
    for limit in 0..=INPUTS {
        let taken = Arc::new(alloc, AtomicU64::new(0)).expect(&rt, NO_MEMORY);
        let machines = boxed_machines(alloc, &scenario, limit, &taken);
        let list = run_list(alloc, &scenario, machines.expect(&rt, NO_MEMORY));
        taken.store(0, Ordering::SeqCst);
        let machines = boxed_machines(alloc, &scenario, limit, &taken);
        let machines = machines.expect(&rt, NO_MEMORY);
        let windows = run_windows(&rt, alloc, &scenario, machines, &plan, &OpenGate);
        if let (Ok(list), Ok(windows)) = (&list, &windows) {
            same(&rt, &list.entries().len(), &12);
            same_entries(&rt, windows.entries(), list.entries());
        }
        let refused = if limit < INPUTS {
            Some(RunError::Memory)
        } else {
            None
        };
        same(
            &rt,
            &(limit, list.err(), windows.err()),
            &(limit, refused, refused),
        );
    }
}

/// A machine that was refused once answers so again, and leaves nothing behind.
#[test]
fn refused_again(rt: HostRuntime) {
    let alloc = rt.alloc();
    let scenario = scenario_of(&rt, alloc, ONE_CRASH);
    let taken = Arc::new(alloc, AtomicU64::new(0)).expect(&rt, NO_MEMORY);
    let machines = boxed_machines(alloc, &scenario, 1, &taken);
    let mut machines = machines.expect(&rt, NO_MEMORY);
    let mut out = Vec::new(alloc);
    let first = machines.first_mut().expect(&rt, "no machine");
    let answer = first.on_input(0, &StepInput::Start, &mut out);
    answer.expect(&rt, NO_MEMORY);
    let count = out.len();
    for now in 1..4 {
        let answer = first.on_input(now, &StepInput::Start, &mut out);
        assert!(rt; answer.is_err() && first.failed());
    }
    same(&rt, &out.len(), &count);
}
