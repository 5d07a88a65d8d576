//! The commands of `fdbench`: from the arguments of a command line to the texts that go out and the exit status.
//!
//! The one contract is that of [`serve`]: with status 0 the outlet grows by what the arguments ask for, which for
//! `list` and `run` is the texts of the scenario's one trace, and for `compare` is `same`; with status 4 by a front
//! part of it; with another status by nothing, but that a `run` of status 3 may leave the trace's first line and rows.
//! With a status other than 0 the line of its fault is told, which comes for a reason that holds (`specs/Why.antt`).
//! The texts are defined by `reporting`, in its `specs/TraceText.antt` and `specs/ReportText.antt`, the trace by the
//! definitions of `trace_laws`, and the arguments by `command_line`. The process ends with the status, by the contract
//! of `finish` of `shell`.
//!
//! [`read_words`] reads the arguments as an [`Order`]. Both are exported again from `command_line`, with
//! [`WordsError`], so that callers know them by this crate.
//!
//! No text shows that a run goes by the plan that is asked for. So [`carry_out`] is lent a gate, which a worker tells
//! of each process that it takes.
//!
//! For example, the command `fdbench compare - --workers 2 --window 1` over a file with two processes prints `same`.
#![tactic(auto)]

pub mod bench;
mod commands;
mod comparing;
pub mod fault;
mod file;
mod serving;

pub use command_line::{Order, WordsError, read_words};
pub use comparing::same_bytes;
pub use serving::{carry_out, serve};
