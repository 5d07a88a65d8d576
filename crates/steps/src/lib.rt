//! The step of a process.
//!
//! [`Seat::turn`] makes a step. A machine with its link counts and an event go in, and an entry comes out. The events
//! that join go where the caller says ([`Joins`]), and a [`Listener`] is told of the letters (`specs/Posting.antt`).
//! The single event list calls it. A run of processes apart from one another calls it too, with [`Nobody`] as the
//! listener.
//!
//! For example, process 1 takes its start at tick 0 and sends process 2 a letter that takes 2 ticks. The entry is the
//! `start`, with one letter sent, and the event that joins is that of process 2 at tick 2.
#![tactic(auto)]

mod links;
mod listener;
mod nobody;
mod seat;

pub use listener::Listener;
pub use nobody::Nobody;
pub use seat::{Seat, kind_of_letter};
pub use trace_laws::{Event, Joins};
