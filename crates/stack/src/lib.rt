//! A process made of its parts.
//!
//! A machine of the simulation is a detector and an algorithm above it. [`Stack`] joins the two. In each step the
//! detector acts first. Then the algorithm acts, which is told whom the detector suspects by then. [`NoAlgorithm`]
//! stands where the processes run detectors alone.
//!
//! The one contract for the layers above is that of `Process`: a stack's mind is the two states of its parts, and on
//! `Ok` a step is `react` of that mind, with at most 512 or 1,024 actions of the detector and 2,048 of the algorithm.
//!
//! For example, a stack over a reduction that suspects process 2 hands {2} to its algorithm, whatever the base detector
//! below the reduction suspects. Where an input made the reduction trust 2 again, the algorithm is handed the empty set
//! in that very step, and its actions come after the note of that trust.
#![tactic(auto)]

mod idle;
mod process;

pub use idle::NoAlgorithm;
pub use process::Stack;
