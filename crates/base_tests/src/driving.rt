//! Parts of a process, driven by hand.
ghost use Rattle.std.specs.{Prelude.{◌≡◌, ◌≤◌, IsTrue, is_some, not}, Option.{ForSome}};
ghost use Rattle.process_api.specs.Mind.{stands_at};
ghost use Rattle.scenario_record.specs.{Ranges.{AreInRange, is_idle}, Opening.{place_of}};

use crate::answers::{are_done, are_members};
use crate::comparisons::{NO_MEMORY, same};
use crate::inputs::{Given, input_of, numbered, set_of};
use process_api::{
    Algorithm, Detector, DetectorNumbers, MOST_PROCESSES, Process, TimeoutNumbers, Watch,
};
use scenario_record::{AlgorithmKind, Opening};
use std::alloc::Global;
use std::process::Abort;

/// A tick, whom the process suspects by then on its top layer, an input, and what is done with it.
pub type Row<'a> = (u32, &'a [u16], Given<'a>, &'a str);

/// Numbers of a detector, where they don't matter.
pub const TIMEOUTS: DetectorNumbers = DetectorNumbers::Timeout(TimeoutNumbers {
    period: 5,
    check: 6,
    timeout: 7,
    grow: 1,
    watch: Watch::All,
});

/// What process `own` of so many opens with.
pub fn opening_of(
    rt: &impl Abort,
    own: u16,
    processes: u16,
    horizon: u32,
    detector: DetectorNumbers,
    share: Option<u32>,
    algorithm: AlgorithmKind,
    proposal: Option<u32>,
) -> Opening
    requires lasts { (1 ≤ horizon) × (horizon ≤ 10000000) }
    requires numbers { AreInRange detector }
    requires shares { ForSome share (λ period. (1 ≤ period) × (period ≤ 1000000)) }
    requires proposes { is_some proposal ≡ not (is_idle algorithm) }
    ensures place { place_of result ≡ record { own = own; processes = processes; horizon = horizon } }
    ensures detector { result.detector ≡ detector }
    ensures share { result.share ≡ share }
    ensures proposal { result.proposal ≡ proposal }
{
    if own > processes || processes > MOST_PROCESSES {
        panic!(rt; "no such process");
    }
    Opening {
        own: numbered(rt, own),
        processes,
        horizon,
        detector,
        share,
        algorithm,
        proposal,
    }
}

/// Gives a detector that suspects nobody yet inputs at their ticks, and compares whom it suspects by then, and what it
/// does.
pub fn drive_detector<D: Detector>(rt: &impl Abort, alloc: Global, machine: &mut D, rows: &[Row]) {
    same(rt, &machine.suspects().len(), &0);
    for &(tick, suspects, given, wanted) in rows {
        let input = input_of(rt, alloc, given);
        let mut out = Vec::new(alloc);
        let taken = machine.take(tick, &input, &mut out);
        taken.expect(rt, NO_MEMORY);
        are_done(rt, alloc, tick, &out, wanted);
        are_members(rt, alloc, tick, &machine.suspects(), suspects);
    }
}

/// Gives an algorithm inputs at their ticks, with the suspects of then, and compares what it does.
pub fn drive_algorithm<A: Algorithm>(
    rt: &impl Abort,
    alloc: Global,
    opening: &Opening,
    machine: &mut A,
    rows: &[Row],
)
    requires { IsTrue (stands_at (place_of opening.now) (A.state machine.old)) }
{
    for &(tick, suspects, given, wanted) in rows {
        let suspects = set_of(rt, suspects);
        if suspects.contains(opening.own) {
            panic!(rt; "nobody suspects itself");
        }
        let input = input_of(rt, alloc, given);
        let mut out = Vec::new(alloc);
        let taken = machine.take(tick, &input, &suspects, &mut out);
        taken.expect(rt, NO_MEMORY);
        are_done(rt, alloc, tick, &out, wanted);
    }
}

/// Gives a process inputs at their ticks, and compares what it does. None of its parts fails.
pub fn drive_process<P: Process>(
    rt: &impl Abort,
    alloc: Global,
    machine: &mut P,
    rows: &[(u32, Given, &str)],
) {
    for &(tick, given, wanted) in rows {
        let input = input_of(rt, alloc, given);
        let mut out = Vec::new(alloc);
        let taken = machine.on_input(tick, &input, &mut out);
        taken.expect(rt, NO_MEMORY);
        are_done(rt, alloc, tick, &out, wanted);
    }
    same(rt, &machine.failed(), &false);
}
