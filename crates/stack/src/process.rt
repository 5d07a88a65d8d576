//! A detector and an algorithm, joined.
ghost use Rattle.std.specs.Prelude.{◌≡◌, false, IsTrue};
ghost use Rattle.process_api.specs.Mind.{stands_at};

use process_api::{Action, Algorithm, Detector, Pid, Process, StepInput};
use std::alloc::AllocError;

/// One process of the simulated system: a detector, and an algorithm above it.
#[derive(Drop)]
pub struct Stack<D: Detector, A: Algorithm> {
    pid: Pid,
    detector: D,
    algorithm: A,
    has_failed: bool,
    ghost own: { pid ≡ (D.lower detector).place.own },
    ghost together: { IsTrue (stands_at (D.lower detector).place (A.state algorithm)) },
}

impl<D: Detector, A: Algorithm> Stack<D, A> {
    /// Process `pid`, made of a detector and an algorithm that were opened for it, with one number of processes and
    /// one horizon. Takes no memory. A part that has failed may be handed in: the first step then answers `Err`.
    pub fn new(pid: Pid, detector: D, algorithm: A) -> Stack<D, A>
        requires own { pid ≡ (D.lower detector).place.own }
        requires together { IsTrue (stands_at (D.lower detector).place (A.state algorithm)) }
        ensures mind { ⟦<Stack<D, A> as Process>⟧.mind result
            ≡ record { lower = D.lower detector; algorithm = A.state algorithm } }
        ensures alive { ⟦<Stack<D, A> as Process>⟧.has_failed result ≡ false }
    {
        Stack {
            pid,
            detector,
            algorithm,
            has_failed: false,
        }
    }
}

impl<D: Detector, A: Algorithm> Process for Stack<D, A> {
    ghost mind = { λ s. record { lower = D.lower s.detector; algorithm = A.state s.algorithm } };

    ghost has_failed = { λ s. s.has_failed };

    fn pid(&self) -> Pid {
        self.pid
    }

    fn on_input(
        &mut self,
        now: u32,
        input: &StepInput,
        out: &mut Vec<Action>,
    ) -> Result<(), AllocError> {
        if self.has_failed {
            return Err(AllocError);
        }
        // it stays true where a part answers `Err`
        self.has_failed = true;
        self.detector.take(now, input, out)?;
        let suspects = self.detector.suspects();
        self.algorithm.take(now, input, &suspects, out)?;
        self.has_failed = false;
        Ok(())
    }

    fn failed(&self) -> bool {
        self.has_failed
    }
}
