//! The traits of a machine's parts.
ghost use Rattle.std.specs.Prelude.{◌≡◌, ◌≤◌, ◌++◌, Bool, false, IsTrue, OnOk, OnErr, IsErr, length, All};
ghost use Rattle.std.specs.FinSet as set;
ghost use Rattle.process_api.specs.{Answer.{IsAllowed}, Place.{most_algorithm_actions, Place}, Mind.{Lower, AlgorithmState, layer_of, most_actions, suspects_of, processes_of, leaves_out, stands_at}};
ghost use Rattle.process_api.specs.React.{TellsChanges, react_lower, react_algorithm};

use crate::action::Action;
use crate::message::StepInput;
use crate::proc_set::ProcSet;
use std::alloc::AllocError;

/// A failure detector: the base one, of layer 1, or a reduction over it, of layer 2 (Chandra and Toueg, Journal of the
/// ACM 43(2), 1996).
pub trait Detector: Send + Drop {
    /// What the detector is, as plain data.
    ghost lower: { Self → Lower };

    /// Whether a call of `take` has answered `Err`.
    ghost has_failed: { Self → Bool };

    /// Takes one input at tick `now`, and appends what the detector does to `out`: at most 512 actions on layer 1 and
    /// 1,024 on layer 2, with receivers among 1 to n and pauses of at least 1. The notes of its own layer are exactly
    /// the changes of its suspects.
    ///
    /// # Errors
    ///
    /// `AllocError` where memory was refused. The detector has failed from then on, and what the call left in `out` is
    /// to be thrown away. A detector that has failed answers `Err` again and leaves `out` as it was.
    fn take(&mut self, now: u32, input: &StepInput, out: &mut Vec<Action>) -> Result<(), AllocError>
        ensures state { OnOk result (lower self.new ≡ (react_lower (lower self.old) now input.now).state) }
        ensures actions { OnOk result (
            out.new.items ≡ out.old.items ++ (react_lower (lower self.old) now input.now).actions) }

        ensures allowed { OnOk result (
            All (IsAllowed (lower self.old).place.processes) (react_lower (lower self.old) now input.now).actions) }
        ensures few { OnOk result (
            length (react_lower (lower self.old) now input.now).actions ≤ most_actions (lower self.old)) }
        ensures changes { OnOk result (TellsChanges (lower self.old) (lower self.new)
            (react_lower (lower self.old) now input.now).actions) }

        ensures place { (lower self.new).place ≡ (lower self.old).place }
        ensures layer { layer_of (lower self.new) ≡ layer_of (lower self.old) }

        ensures alive { OnOk result (has_failed self.new ≡ has_failed self.old) }
        ensures failed { OnErr result (IsTrue (has_failed self.new)) }
        ensures stays_failed { IsTrue (has_failed self.old)
            → IsErr result × (IsTrue (has_failed self.new) × (out.new.items ≡ out.old.items)) };

    /// Whom the detector suspects, on its own layer. Nobody suspects itself.
    fn suspects(&self) -> ProcSet
        ensures value { result ≡ suspects_of (lower self.now) }
        ensures not_itself { set.contains (suspects_of (lower self.now)) (lower self.now).place.own ≡ false };
}

/// An algorithm over a detector.
pub trait Algorithm: Send + Drop {
    /// What the algorithm is, as plain data.
    ghost state: { Self → AlgorithmState };

    /// Whether a call of `take` has answered `Err`.
    ghost has_failed: { Self → Bool };

    /// Takes one input, with whom the top layer suspects after it, which leaves out the own process, and appends what
    /// the algorithm does to `out`: at most 2,048 actions, with receivers among 1 to n and pauses of at least 1.
    ///
    /// # Errors
    ///
    /// `AllocError` where memory was refused. The algorithm has failed from then on, and what the call left in `out` is
    /// to be thrown away. An algorithm that has failed answers `Err` again and leaves `out` as it was.
    fn take(
        &mut self,
        now: u32,
        input: &StepInput,
        suspects: &ProcSet,
        out: &mut Vec<Action>,
    ) -> Result<(), AllocError>
        requires { IsTrue (leaves_out suspects.now (state self.old)) }

        ensures state { OnOk result (
            state self.new ≡ (react_algorithm (state self.old) input.now suspects.now).state) }
        ensures actions { OnOk result (
            out.new.items ≡ out.old.items ++ (react_algorithm (state self.old) input.now suspects.now).actions) }

        ensures allowed { OnOk result (
            All (IsAllowed (processes_of (state self.old)))
            (react_algorithm (state self.old) input.now suspects.now).actions) }
        ensures few { OnOk result (length (react_algorithm (state self.old) input.now suspects.now).actions
            ≤ most_algorithm_actions) }
        ensures place { (place : Place) → stands_at place (state self.new) ≡ stands_at place (state self.old) }

        ensures alive { OnOk result (has_failed self.new ≡ has_failed self.old) }
        ensures failed { OnErr result (IsTrue (has_failed self.new)) }
        ensures stays_failed { IsTrue (has_failed self.old)
            → IsErr result × (IsTrue (has_failed self.new) × (out.new.items ≡ out.old.items)) };
}
