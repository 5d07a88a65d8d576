//! The definition of a scenario's trace, and laws that follow from it, whatever code makes the trace.
//!
//! `specs/World.antt` defines the single event list. It has all pending events and takes the least of them. The step of
//! that event changes the processes and adds events (`specs/Step.antt`). The list doesn't know detectors, algorithms or
//! fates: it sees a scenario as a `Setting` (`specs/Setting.antt`), and `setting_of` makes one of a scenario.
//! `specs/History.antt` says what a closed history is, whatever the order in which events are taken.
//!
//! It is proved here that a scenario has exactly one trace, that this trace is a closed history, and that every closed
//! history has its entries (`proofs/Closed.antt`). It is also proved that each entry but a start has one cause, which
//! is an earlier entry, and that each event which a step adds below the horizon is one entry (`proofs/Effects.antt`).
//! The contract of `law_only_history` of `event_list` names these laws, and the runs of `event_list` and `windows` use
//! them. The only code is an [`Event`], which waits for its receiver, a [`Parcel`], which is a letter on its way, and
//! [`Joins`], the trait of whoever takes the events of a step.
//!
//! For example, of two processes that send each other a letter at tick 0 the trace begins with both starts, in the
//! order of their numbers.
#![tactic(auto)]

mod event;
mod joins;
mod parcel;

pub use event::Event;
pub use joins::Joins;
pub use parcel::Parcel;
