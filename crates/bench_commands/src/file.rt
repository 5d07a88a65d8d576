//! The scenario that a path names.
ghost use Rattle.std.specs.Prelude.{◌≡◌, ◌≢◌, ◌+◌, IfOk, IfErr};
ghost use Rattle.bench_commands.specs.{Answer.{IsScenarioAt}, Why.{StopsBefore}};
ghost use Rattle.shell.specs.Ending.{TakesAtMost, input_path, most_bytes};

use crate::fault::Fault;
use scenario::{Scenario, ScenarioError, read_scenario};
use shell::{InputError, bytes_at};
use std::alloc::Global;
use std::io::Read;
use std::rt::Files;

/// The scenario at a path; `-` is the input.
pub(crate) fn scenario_at<R: Files, I: Read>(
    rt: &R,
    alloc: Global,
    path: &str,
    input: &mut I,
) -> Result<Scenario, Fault>
    ensures stands { IfOk result (IsScenarioAt (I.remaining input.old) path.now) }
    ensures why { IfErr result (StopsBefore (I.remaining input.old) path.now) }
    ensures taken { TakesAtMost (most_bytes + 1) (I.remaining input.old) (I.remaining input.new) }
    ensures untouched { path.now ≢ input_path → input.new ≡ input.old }
{
    let bytes = match bytes_at(rt, alloc, path, input) {
        Ok(bytes) => bytes,
        Err(InputError::NoSuchFile | InputError::Unreadable) => return Err(Fault::Unreadable),
        Err(InputError::TooLong) => return Err(Fault::TooLong),
        Err(InputError::Memory) => return Err(Fault::Scenario(ScenarioError::Memory)),
    };
    match read_scenario(alloc, &bytes) {
        Ok(scenario) => Ok(scenario),
        Err(error) => Err(Fault::Scenario(error)),
    }
}
