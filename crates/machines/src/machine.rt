//! The machine of a process.
ghost use Rattle.std.specs.Prelude.{◌≡◌, IfOk, map};
ghost use Rattle.process_api.specs.Place.{numbers_to};
ghost use Rattle.scenario_record.specs.{Opening.{mind_of}, Record.{opening_mind}};

use crate::detectors::AnyDetector;
use consensus_es::EsConsensus;
use consensus_s::SConsensus;
use process_api::{Action, Pid, Process, StepInput};
use scenario_record::{AlgorithmKind, Opening, Scenario};
use stack::{NoAlgorithm, Stack};
use std::alloc::{AllocError, Global};

/// A process: its detector, and above it the algorithm that it runs, or none. The parts lie in a box, so that a machine
/// that goes from one thread to another is moved as a pointer.
#[derive(Drop)]
pub enum Machine {
    /// A detector alone.
    Idle(Box<Stack<AnyDetector, NoAlgorithm>>),
    /// Consensus with S above a detector.
    Strong(Box<Stack<AnyDetector, SConsensus>>),
    /// The rotating coordinator above a detector.
    EventuallyStrong(Box<Stack<AnyDetector, EsConsensus>>),
}

impl Machine {
    /// The machine with which a process opens.
    ///
    /// # Errors
    ///
    /// `AllocError` where memory was refused.
    pub fn open(alloc: Global, opening: &Opening) -> Result<Machine, AllocError>
        ensures { IfOk result (λ made. ⟦<Machine as Process>⟧.mind made ≡ mind_of opening.now) }
    {
        let own = opening.own;
        let detector = AnyDetector::open(alloc, opening)?;
        match opening.algorithm {
            AlgorithmKind::Idle => {
                let stack = Stack::new(own, detector, NoAlgorithm);
                Ok(Machine::Idle(Box::new(alloc, stack)?))
            }
            AlgorithmKind::Strong => {
                let consensus = SConsensus::open(alloc, opening)?;
                let stack = Stack::new(own, detector, consensus);
                Ok(Machine::Strong(Box::new(alloc, stack)?))
            }
            AlgorithmKind::EventuallyStrong => {
                let consensus = EsConsensus::open(alloc, opening)?;
                let stack = Stack::new(own, detector, consensus);
                Ok(Machine::EventuallyStrong(Box::new(alloc, stack)?))
            }
        }
    }
}

impl Process for Machine {
    ghost use Rattle.machines.specs.declared.machine.Machine.TheVariants.{Idle, Strong, EventuallyStrong};

    ghost mind = { λ m. elim m [
      | Idle its ↦ ⟦<Stack<AnyDetector, NoAlgorithm> as Process>⟧.mind its.value
      | Strong its ↦ ⟦<Stack<AnyDetector, SConsensus> as Process>⟧.mind its.value
      | EventuallyStrong its ↦ ⟦<Stack<AnyDetector, EsConsensus> as Process>⟧.mind its.value
    ] };

    ghost has_failed = { λ m. elim m [
      | Idle its ↦ ⟦<Stack<AnyDetector, NoAlgorithm> as Process>⟧.has_failed its.value
      | Strong its ↦ ⟦<Stack<AnyDetector, SConsensus> as Process>⟧.has_failed its.value
      | EventuallyStrong its ↦ ⟦<Stack<AnyDetector, EsConsensus> as Process>⟧.has_failed its.value
    ] };

    fn pid(&self) -> Pid {
        match self {
            Machine::Idle(stack) => stack.pid(),
            Machine::Strong(stack) => stack.pid(),
            Machine::EventuallyStrong(stack) => stack.pid(),
        }
    }

    fn on_input(
        &mut self,
        now: u32,
        input: &StepInput,
        out: &mut Vec<Action>,
    ) -> Result<(), AllocError> {
        match self {
            Machine::Idle(stack) => stack.on_input(now, input, out),
            Machine::Strong(stack) => stack.on_input(now, input, out),
            Machine::EventuallyStrong(stack) => stack.on_input(now, input, out),
        }
    }

    fn failed(&self) -> bool {
        match self {
            Machine::Idle(stack) => stack.failed(),
            Machine::Strong(stack) => stack.failed(),
            Machine::EventuallyStrong(stack) => stack.failed(),
        }
    }
}

/// The machines of a scenario's processes, of process 1 first: each opens as the scenario says.
///
/// # Errors
///
/// `AllocError` where memory was refused.
pub fn machines_of(alloc: Global, scenario: &Scenario) -> Result<Vec<Machine>, AllocError>
    ensures { IfOk result (λ machines. map ⟦<Machine as Process>⟧.mind machines.items
        ≡ map (opening_mind scenario.now) (numbers_to scenario.now.processes)) }
{
    let mut machines = Vec::new(alloc);
    for before in 0..scenario.processes() {
        machines.push(Machine::open(alloc, &scenario.opening(Pid::after(before)))?)?;
    }
    Ok(machines)
}
