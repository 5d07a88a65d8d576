//! Bounds of detectors that no run breaks: by when a crash is detected, which links bring no mistake, and by when a
//! detection is shared.
//!
//! [`law_bounds`] says them of every trace of a scenario, in the scenario's numbers alone and, for time-outs, with the
//! trusts that the observer noted. The notes of a process say whom it suspects at the end of a tick.
//!
//! - `specs/Bounds.antt`, layer 1: whoever watches a process that crashes, and doesn't crash itself, suspects it from a
//!   tick on, up to the horizon (`specs/Detected.antt`), which is soon after the crash; over a reliable link
//!   (`specs/Detected.antt`) there is no mistake; and what this makes of strong accuracy and strong completeness.
//! - `specs/Shared.antt`, layer 2: from when each correct process suspects whom a correct one detected.
//!
//! For example, let `eta` be 10 and `delta` 3. A process that crashes at tick 21 sent its last heartbeat, the second,
//! at tick 20; the third point lies at tick 33, so that whoever watches it suspects it from there to the end. No link
//! whose letters all come, each within 3 ticks, brings a mistake.
//!
//! Let all share at each 10th tick, too, and each letter take 1 to 4 ticks. Process 1 suspects process 3 for good from
//! tick 33 on, and shares that at tick 40. So process 2 suspects process 3 on layer 2 from tick 44 on, if no set of
//! process 3 can come at tick 41 or later: the share of tick 40 comes at tick 41 at the earliest, and has to come
//! behind all of them.
//!
//! The argument stands at the head of `proofs/Lib.antt`.
#![tactic(auto)]

mod laws;

pub use laws::law_bounds;
