//! The machines of a scenario's processes.
//!
//! The parts of a process depend on its opening. [`AnyDetector::open`] chooses its detector: the base detector of the
//! kind whose numbers it has, and a reduction over it where there is a share period. [`Machine::open`] puts above it
//! the algorithm that the opening asks for, or none. [`machines_of`] makes the machines of all processes, in the order
//! of their numbers.
//!
//! Each has one promise: its result has the mind, or the part of it, with which the scenario says that the process
//! opens (`scenario_record/specs/Opening.antt`). From then on a machine does what the contract of
//! [`process_api::Process`] says.
//!
//! For example, of a scenario with three processes, a share period and the algorithm `es` each machine is a time-out
//! detector, the reduction over it and the rotating coordinator above both.
#![tactic(auto)]

mod detectors;
mod machine;

pub use detectors::{AnyDetector, BaseDetector};
pub use machine::{Machine, machines_of};
