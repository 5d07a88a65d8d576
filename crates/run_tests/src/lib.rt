//! Tests of the crates that run machines, and of those that judge, measure and draw what came of a run.
//!
//! These are the tests of the crates `streams`, `pending_events`, `deques`, `mailboxes`, `trace_merge` and `windows`, a
//! module for each: fates of letters, pending events, what threads steal, letters that they post, parts that are
//! merged, and runs by windows. And these are the tests of `diagnosis`, `study`, `judges`, `reporting`, `runs`,
//! `sweep`, `svg` and `drawing`: diagnoses of files, grids of runs and networks laid over them, verdicts and outcomes,
//! the table of letters, measures and outlets, sums and rows of studies, and pictures, over traces and findings that
//! are worked out by hand. The crate `transcripts` compares what whole runs print.
//!
//! They stand apart from these crates, since a crate with tests is proved twice, without them and with them, and this
//! crate has nothing else. They stand in one crate, since the check of another would read the same libraries once
//! more. Modules of their own have what the tests share: comparisons, processes and keys (`common`), scenarios and
//! traces in the form in which a trace is printed, and the findings of a run.
#![tactic(auto)]

#[cfg(test)]
mod common;
#[cfg(test)]
mod comparisons;
#[cfg(test)]
mod deque_tests;
#[cfg(test)]
mod diagnosis_tests;
#[cfg(test)]
mod drawing_tests;
#[cfg(test)]
mod findings;
#[cfg(test)]
mod grid_tests;
#[cfg(test)]
mod judge_tests;
#[cfg(test)]
mod laying_tests;
#[cfg(test)]
mod letter_tests;
#[cfg(test)]
mod list_tests;
#[cfg(test)]
mod mailbox_tests;
#[cfg(test)]
mod merge_tests;
#[cfg(test)]
mod report_tests;
#[cfg(test)]
mod stream_tests;
#[cfg(test)]
mod svg_tests;
#[cfg(test)]
mod sweep_tests;
#[cfg(test)]
mod traces;
#[cfg(test)]
mod window_tests;
