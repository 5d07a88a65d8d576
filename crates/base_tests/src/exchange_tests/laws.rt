//! What a caller has of the laws.
ghost use Rattle.std.specs.Prelude.{◌≡◌, ◌++◌, IsTrue, OnOk};
ghost use Rattle.{process_api.specs.{Mind.{leaves_out}, React.{react_algorithm}}, consensus_s.specs.Machine.{state_of}};
ghost use Rattle.base_tests.specs.Settled.{IsSettled};

use crate::answers::are_done;
use crate::comparisons::NO_MEMORY;
use crate::driving::{TIMEOUTS, opening_of};
use consensus_s::{SConsensus, law_settled};
use process_api::{Action, Algorithm, ProcSet, StepInput, Tag};
use scenario_record::AlgorithmKind;
use std::alloc::AllocError;

/// A wake that comes right after an input does nothing more, and no wait is over then.
fn take_and_wake(
    machine: &mut SConsensus,
    input: &StepInput,
    suspects: &ProcSet,
    out: &mut Vec<Action>,
) -> Result<(), AllocError>
    requires { IsTrue (leaves_out suspects.now (state_of machine.old)) }
    ensures over { OnOk result (IsSettled suspects.now (state_of machine.new)) }
    ensures state { OnOk result (state_of machine.new
        ≡ (react_algorithm (state_of machine.old) input.now suspects.now).state) }
    ensures actions { OnOk result (out.new.items ≡ out.old.items
        ++ (react_algorithm (state_of machine.old) input.now suspects.now).actions) }
{
    law_settled();
    machine.take(0, input, suspects, out)?;
    machine.take(0, &StepInput::Wake(Tag::Check), suspects, out)?;
    Ok(())
}

/// Process 1 of two starts, and nothing more is done.
#[test]
fn waits_settle(rt: HostRuntime) {
    let alloc = rt.alloc();
    let kind = AlgorithmKind::Strong;
    let opening = opening_of(&rt, 1, 2, 20, TIMEOUTS, None, kind, Some(10));
    let mut machine = SConsensus::open(alloc, &opening).expect(&rt, NO_MEMORY);
    let mut out = Vec::new(alloc);
    let taken = take_and_wake(&mut machine, &StepInput::Start, &ProcSet::new(), &mut out);
    taken.expect(&rt, NO_MEMORY);
    let wanted = "round:1 vector:1[10 -]>1 vector:1[10 -]>2";
    are_done(&rt, alloc, 0, &out, wanted);
}
