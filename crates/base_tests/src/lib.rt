//! Tests of the crates on which the others depend: scenarios, networks, and the parts of a process.
//!
//! These are the tests of `scenario`, `network`, `process_api`, `timeout_detector`, `freshness_detector`, `reduction`,
//! `consensus_s`, `consensus_es`, `stack` and `machines`, a module for each: files of scenarios and of networks,
//! processes, sets, keys and actions, detectors and algorithms input by input, parts that are joined, and the machines
//! of a scenario at their start. They stand apart from these crates, since a crate with tests is proved twice, without
//! them and with them, and this crate has nothing else.
//!
//! Modules of their own have what the tests share: comparisons, changes of texts (`changes`), the inputs of a part
//! (`inputs`), its actions as text (`answers`), parts that are driven by rows of the two (`driving`), and a detector
//! for the parts above one (`suspects_three`).
#![tactic(auto)]

#[cfg(test)]
mod answers;
#[cfg(test)]
mod changes;
#[cfg(test)]
mod comparisons;
#[cfg(test)]
mod coordinator_tests;
#[cfg(test)]
mod driving;
#[cfg(test)]
mod exchange_tests;
#[cfg(test)]
mod freshness_tests;
#[cfg(test)]
mod inputs;
#[cfg(test)]
mod making_tests;
#[cfg(test)]
mod network_tests;
#[cfg(test)]
mod process_tests;
#[cfg(test)]
mod reduction_tests;
#[cfg(test)]
mod scenario_tests;
#[cfg(test)]
mod stack_tests;
#[cfg(test)]
mod suspects_three;
#[cfg(test)]
mod timeout_tests;
