//! Judges of a run. They say which properties of Chandra and Toueg (Journal of the ACM 43(2), 1996) its failure
//! detectors had, and what its processes decided.
//!
//! Two calls read a finished trace. [`judge`] gives the six [`Verdicts`] on one layer of detectors. It reads whom a
//! process suspects at a tick from its notes, as they stand at the end of that tick, and 'eventually' ends at the
//! horizon. [`decisions`] gives one [`Outcome`] for each process. For every scenario and every trace, whoever made it,
//! their contracts say of an `Ok`:
//!
//! - the verdicts are those that `specs/Verdicts.antt` counts out, and what is stated there by quantifiers
//!   over processes and ticks;
//! - the outcomes are those of `specs/Outcomes.antt`.
//!
//! Where the trace is the one that the event list defines and the algorithm is the rotating coordinator, [`decisions`]
//! promises more (`specs/Agreement.antt`): no two outcomes have different values, each value was proposed, no process
//! ends with no value, and each notes at most one decision, under any detector settings, delays, losses and crashes.
//! The proof uses no more of the base detector than the laws in `specs/BaseDetector.antt` of `process_api`. Its
//! argument stands at the head of `proofs/Agreement.antt`. The crate above also promises `specs/Out.antt`, which is
//! proved here: each suspicion of layer 2 has an earlier entry that notes one of the same process on layer 1.
//!
//! [`RunningJudge`] and [`RunningOutcomes`] answer the same without a trace. They are fed with its entries as these
//! come, and hold none of them. Both follow a run as a `Follower` does, and the two calls have them follow the trace
//! (`specs/Pairs.antt` defines what they were fed).
//!
//! [`Pairs`] is the machinery of the judge, and of other crates that count what detectors do. It keeps a [`Gauge`] of
//! each pair of processes on a layer, which its owner chooses. It moves the gauge where a note of the observer begins
//! or ends the suspicion of the subject. Whatever the gauge, [`grid_verdicts`] sees a [`Track`] in it. The gauge that
//! is kept is the opened one, moved by the turns of the pair in the trace (`specs/Turns.antt`);
//! `proofs/Standing.antt` says what it then knows of the ticks.
//!
//! No contract speaks of work and memory. The code goes over the entries once. For each pair of processes it keeps the
//! tick since when the one suspects the other, or doesn't, and changes that only at a note. So the work grows with the
//! notes of the trace and with the number of pairs, and not with the ticks. All memory is allocated at the opening.
//!
//! For example, let process 2 of two crash at tick 3 of 10, and process 1 note at tick 9 that it suspects it. Both
//! completenesses hold from tick 9, the eventual accuracies from tick 0, and the other two hold.
#![tactic(auto)]

mod ends;
mod grid;
mod outcomes;
mod pair;
mod pairs;
mod running;
mod track;
mod verdicts;

pub use ends::end_tick;
pub use grid::grid_verdicts;
pub use outcomes::{Answer, Outcome, RunningOutcomes, decisions};
pub use pair::{Gauge, Pair, turn_of};
pub use pairs::Pairs;
pub use running::RunningJudge;
pub use track::Track;
pub use verdicts::{Verdicts, judge};
