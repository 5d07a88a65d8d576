//! The reduction from weak to strong completeness.
//!
//! Chandra and Toueg (Journal of the ACM 43(2), 1996) turn a failure detector by which some correct process suspects
//! each crashed one into a detector by which every correct process does. Each process shares whom its own detector
//! suspects. It suspects whom others share, except for a sender, which is alive. [`Reduced`] is this reduction over any
//! detector of layer 1, and is itself a detector, of layer 2.
//!
//! The one contract for the layers above is that of `Detector`: its plain data is that of the detector below with the
//! reduction's state joined to it, and on `Ok` a step is `react_lower` of that, with at most 1,024 actions.
//!
//! For example, let process 1 of 3 suspect 2 on layer 2. Process 2 shares the set {1, 3}. Process 1 then suspects 3,
//! trusts 2 again, whose letter shows that it is alive, and leaves itself out: it notes the suspicion of 3 and then
//! the trust in 2, and suspects {3}.
#![tactic(auto)]

mod gathering;
mod reduced;

pub use reduced::Reduced;
