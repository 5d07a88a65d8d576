//! Accepted scenarios, and the settings with which each process opens.
//!
//! A [`Scenario`] says what a run has to do: its processes, crashes, links, horizon and seed (`specs/Record.antt`).
//! Each of its fields is in its range (`specs/Ranges.antt`). [`Scenario::of`] requires this, so a scenario never has to
//! be checked again. The crate `scenario` makes one of a file.
//!
//! Its readers allocate no memory. [`Scenario::crash`] and [`Scenario::proposal`] answer nothing of a process above the
//! number of processes. [`Scenario::opening`] gives the settings with which a process opens, and with them the mind of
//! its machine (`specs/Opening.antt`).
//!
//! For example, where process 2 of two crashes at tick 3, `crash` answers 3 for process 2 and nothing for process 1.
#![tactic(auto)]

mod algorithm;
mod link;
mod link_outages;
mod opening;
mod outage;
mod record;

pub use algorithm::AlgorithmKind;
pub use link::Link;
pub use link_outages::LinkOutages;
pub use opening::Opening;
pub use outage::Outage;
pub use record::{Fields, Scenario};
