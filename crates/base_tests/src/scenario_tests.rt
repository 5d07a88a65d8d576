//! Files that are read, and files that are refused.
mod accepted;
mod corners;
mod cuts;
mod drawn;

use scenario::{Scenario, ScenarioError, read_scenario};
use std::alloc::Global;

/// The name of an answer.
fn name_of(answer: &Result<Scenario, ScenarioError>) -> &'static str {
    match answer {
        Ok(_) => "accepted",
        Err(error) => error.name(),
    }
}

/// What the reading of a file answers, by name.
fn answer(alloc: Global, file: &[u8]) -> &'static str {
    name_of(&read_scenario(alloc, file))
}
