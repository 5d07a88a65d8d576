//! The time-out detector: the failure detector of layer 1.
//!
//! Each process sends Alive letters to all others again and again. A process that watches another suspects it at the
//! first check that finds it silent for as long as its bound, or longer. It trusts the other again as soon as a letter
//! from it comes. Each such mistake makes the bound longer by `grow`, up to the horizon (Chandra and Toueg, "Unreliable
//! failure detectors for reliable distributed systems", Journal of the ACM 43(2), 1996).
//!
//! The one contract for the layers above is that of [`process_api::Detector`]. As plain data, [`TimeoutDetector`] takes
//! each input as `step_timeout` of `process_api/specs/Timeout.antt` says, and it opens as the scenario's opening says
//! (`base_of` of `scenario_record/specs/Opening.antt`).
//!
//! [`FreshnessDetector`], the other detector of layer 1, is exported again, so that callers know both by this crate. It
//! is described in `freshness_detector`.
//!
//! For example, there are two processes, the period is 4, the check 3 and the time-out 5. Process 1 takes an Alive
//! letter of process 2 at tick 2. Its checks at ticks 3 and 6 find silences of 1 and 4 ticks, and do nothing. The check
//! at tick 9 finds 7, which isn't below 5: process 1 suspects process 2, and notes it. If a letter of process 2 comes
//! at tick 10, process 1 trusts it again, and from then on bears with 6 ticks of silence, if `grow` is 1.
#![tactic(auto)]

mod bound;
mod detector;

pub use detector::TimeoutDetector;
pub use freshness_detector::FreshnessDetector;
