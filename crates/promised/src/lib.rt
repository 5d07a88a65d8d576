//! Bounds that no run of a scenario breaks, in numbers: how soon each crash is detected, how many links surely bring no
//! mistake, and which numbers of the detector would do for all of them.
//!
//! [`promised_bounds`] computes them from the scenario alone, by the bounds of `detector_bounds`. Each of them is
//! defined in `specs/Promised.antt`, and `specs/Kept.antt` says what they mean in every trace. [`detected_by`] is the
//! bound of one crash, with the trusts that a run has noted. All are of layer 1.
//!
//! For example, let `eta` be 3 and `delta` 2, and let all letters take 2 ticks. One of two processes crashes at tick 4.
//! Its last heartbeat was sent at tick 3, so it is suspected from tick 8 on, 4 ticks after its crash; and as no delay
//! is above `delta`, neither link can bring a mistake.
#![tactic(auto)]

mod bounds;
mod detected;
mod periods;
mod watching;

pub use bounds::{PromisedBounds, promised_bounds};
pub use detected::detected_by;
pub use watching::{WatchedLink, watched_links};
