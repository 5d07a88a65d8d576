//! The terms that all crates share: processes and sets of them, keys, letters, inputs, actions, notes and entries; and
//! the traits of machines. A letter is a message from one process to another.
//!
//! A machine is one simulated process. It takes inputs (its start, letters, wakes), each at a tick, and answers with
//! actions (letters, wakes, notes). Its meaning is a *mind*, which is plain data. One definition, `react`, says how an
//! input changes a mind and which actions it causes (`specs/React.antt`). The one contract for the layers above is that
//! of [`Process`]: on `Ok`, `on_input` is `react`, and nothing else.
//!
//! A mind has parts, each with a definition of its own in `specs/`: a base detector of some kind (`Detector` joins the
//! kinds; there are `Timeout` and `Freshness`), perhaps a reduction over it (`Reduction`), and perhaps a consensus
//! algorithm (`ConsensusS`, `Coordinator` with `Diffusion`). The crates that implement a part meet [`Detector`] or
//! [`Algorithm`]. The layers above a base detector use its laws (`BaseDetector`), whichever its kind:
//! [`law_base_detectors`] says that each kind has them.
//!
//! The crate also has the types that a run shares with its caller: the choice of the texts to write ([`PrintChoice`]),
//! the reasons why there is no trace ([`RunError`]), and those who are told the entries as they come ([`Follower`]). A
//! follower's contract is a relation between the state in which it began, the entries that it was told, and its state
//! after them. An option of a follower is a follower too, and so are a pair of followers, and a vector of entries,
//! which keeps them. For example, `&mut (counts, Vec::new(alloc))` counts the entries of a run and keeps them.
#![tactic(auto)]

mod action;
mod cells;
mod consensus;
mod entry;
mod follower;
mod key;
mod laws;
mod letters;
mod membership;
mod message;
mod noting;
mod numbers;
mod parts;
mod pid;
mod print_choice;
mod proc_set;
mod process;
mod row;
mod run_error;
mod trace;
mod words;

pub use action::{Action, Note, note_that, send_to, send_to_all, send_to_others, wake_after};
pub use cells::Cells;
pub use consensus::{Estimate, GREATEST_ROUND, Phase};
pub use entry::{Entry, Kind};
pub use follower::{Follower, follow_all};
pub use key::Key;
pub use laws::law_base_detectors;
pub use letters::{Letters, drop_rounds_before};
pub use membership::Membership;
pub use message::{Letter, Payload, StepInput, Tag};
pub use noting::note_changes;
pub use numbers::{
    DetectorNumbers, FreshnessNumbers, GREATEST_COUNT, LAST_TICK, MOST_TICKS, TimeoutNumbers, Watch,
};
pub use parts::{Algorithm, Detector};
pub use pid::{MOST_PROCESSES, Pid};
pub use print_choice::PrintChoice;
pub use proc_set::{Members, ProcSet};
pub use process::Process;
pub use row::Row;
pub use run_error::RunError;
pub use trace::Trace;
