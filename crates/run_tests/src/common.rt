//! Code for the tests of several crates.
ghost use Rattle.std.specs.Prelude.{◌≡◌, ◌≤◌};
ghost use Rattle.process_api.specs.Place.{most_processes};

use process_api::{Key, Pid};
use scenario::{Scenario, read_scenario};
use std::alloc::Global;
use std::process::Abort;

/// Why a test stops where a plan or a run was refused.
pub const NO_RUN: &str = "a run was refused";

/// The scenario of a file.
pub fn scenario_of<R: Abort>(rt: &R, alloc: Global, file: &str) -> Scenario {
    let read = read_scenario(alloc, file.as_bytes());
    read.expect(rt, "the file was refused")
}

/// The process of this number.
pub fn pid(number: u16) -> Pid
    requires low { 1 ≤ number }
    requires high { number ≤ most_processes }
    ensures { result ≡ number }
{
    Pid::after(number - 1)
}

/// The key of an event of a process's own.
pub fn own_key(tick: u32, pid: Pid, number: u64) -> Key
    ensures { result ≡ record { tick = tick; receiver = pid; sender = pid; number = number } }
{
    Key {
        tick,
        receiver: pid,
        sender: pid,
        number,
    }
}
