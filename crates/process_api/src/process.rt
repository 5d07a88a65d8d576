//! The trait of machines.
ghost use Rattle.std.specs.Prelude.{◌≡◌, ◌≤◌, ◌++◌, Bool, true, IsTrue, OnOk, OnErr, IsErr, length, All};
ghost use Rattle.process_api.specs.{Answer.{IsAllowed}, Place.{most_step_actions}, Mind.{Mind}, React.{react}};

use crate::action::Action;
use crate::message::StepInput;
use crate::pid::Pid;
use std::alloc::AllocError;

/// A machine: one process of the simulated system. Its meaning is its mind.
pub trait Process: Send + Drop {
    /// What the machine is, as plain data.
    ghost mind: { Self → Mind };

    /// Whether a call of `on_input` has answered `Err`.
    ghost has_failed: { Self → Bool };

    /// The process that this machine is.
    fn pid(&self) -> Pid
        ensures { result ≡ (mind self.now).lower.place.own };

    /// Takes one input at tick `now`, and appends what the process does to `out`: at most 4,096 actions, with
    /// receivers among 1 to n and pauses of at least 1.
    ///
    /// # Errors
    ///
    /// `AllocError` where memory was refused. The machine has failed from then on, and what the call left in `out`
    /// is to be thrown away. A machine that has failed answers `Err` again and leaves `out` as it was.
    fn on_input(
        &mut self,
        now: u32,
        input: &StepInput,
        out: &mut Vec<Action>,
    ) -> Result<(), AllocError>
        ensures mind { OnOk result (mind self.new ≡ (react (mind self.old) now input.now).state) }
        ensures actions { OnOk result (
            out.new.items ≡ out.old.items ++ (react (mind self.old) now input.now).actions) }
        ensures allowed { OnOk result (
            All (IsAllowed (mind self.old).lower.place.processes) (react (mind self.old) now input.now).actions) }
        ensures few { OnOk result (length (react (mind self.old) now input.now).actions ≤ most_step_actions) }

        ensures alive { OnOk result (has_failed self.new ≡ has_failed self.old) }
        ensures failed { OnErr result (IsTrue (has_failed self.new)) }
        ensures stays_failed { IsTrue (has_failed self.old)
            → IsErr result × (IsTrue (has_failed self.new) × (out.new.items ≡ out.old.items)) };

    /// Whether a call of `on_input` has answered `Err`.
    fn failed(&self) -> bool
        ensures { result ≡ has_failed self.now };
}

impl Process for Box<dyn Process> {
    ghost mind = { λ b. (Process-box b).mind b.value };

    ghost has_failed = { λ b. (Process-box b).has_failed b.value };

    fn pid(&self) -> Pid {
        (**self).pid()
    }

    fn on_input(
        &mut self,
        now: u32,
        input: &StepInput,
        out: &mut Vec<Action>,
    ) -> Result<(), AllocError> {
        (**self).on_input(now, input, out)
    }

    fn failed(&self) -> bool {
        (**self).failed()
    }
}
