//! Tests of `bench_commands` and `study_commands`: runs of `fdbench` and `fdstudy` over memory, from the arguments to
//! the status; and of the inputs that `shell` reads.
//!
//! The crate `transcripts` compares what a run prints. Here is tested what no printed text shows: inputs and outlets
//! that fail, files by their paths, calls of the library, threads that must overlap, plans and windows as a gate sees
//! them, agreement with many seeds, bounds of detectors that are met exactly, sums over many reports, the line of
//! progress, and when a watcher is warned.
#![tactic(auto)]

#[cfg(test)]
mod agreement;
#[cfg(test)]
mod bounds;
#[cfg(test)]
mod common;
#[cfg(test)]
mod files;
#[cfg(test)]
mod inputs;
#[cfg(test)]
mod judged;
#[cfg(test)]
mod outlets;
#[cfg(test)]
mod overlap;
#[cfg(test)]
mod paths;
#[cfg(test)]
mod plans;
#[cfg(test)]
mod progress_lines;
#[cfg(test)]
mod refusals;
#[cfg(test)]
mod reports;
#[cfg(test)]
mod threads;
#[cfg(test)]
mod traces;
#[cfg(test)]
mod warnings;
