//! The code that the tests share: one run of a program over memory, and changes of files.
ghost use Rattle.std.specs.Prelude.{◌<◌, ◌^◌, ◌-◌};

use reporting::{MemoryOutlet, Outlet};
use scenario::{Scenario, read_scenario};
use std::alloc::Global;
use std::fmt::Debug;
use std::io::Read;
use std::marker::Sync;
use std::process::Abort;
use std::rt::Files;
use std::sync::Wait;
use std::thread::Threads;
use std::time::Clock;
use sweep::Unwatched;

/// Why a test stops where it had no memory.
pub const NO_MEMORY: &str = "memory was refused";

/// Why a test stops where a plan or a run was refused.
pub const NO_RUN: &str = "a run was refused";

/// What came is what was wanted.
pub fn same<R: Abort, T: PartialEq + Debug>(rt: &R, came: &T, wanted: &T) {
    assert_eq!(rt; came, wanted);
}

/// The status of a run of `fdbench` or `fdstudy`, by the words of a line, apart by one space each.
pub fn served<R: Files + Threads + Wait + Sync + Clock + Abort, I: Read, O: Outlet, F: Outlet>(
    rt: &R,
    alloc: Global,
    line: &str,
    input: &mut I,
    outlet: &mut O,
    faults: &mut F,
) -> u8
    requires outlet { O.failed outlet.old < 2 ^ 64 - 1 }
    requires faults { F.failed faults.old < 2 ^ 64 - 1 }
{
    let words = line.split(' ').collect(alloc);
    let words: Vec<&str> = words.expect(rt, NO_MEMORY);
    if line.starts_with("fdbench ") {
        return bench_commands::serve(rt, alloc, &words, input, outlet, faults);
    }
    let watcher = &mut Unwatched;
    study_commands::serve::serve(rt, alloc, &words, input, outlet, faults, watcher)
}

/// What a run prints that is done, by the words of a line, over this file.
pub fn printed<R: Files + Threads + Wait + Sync + Clock + Abort>(
    rt: &R,
    alloc: Global,
    line: &str,
    file: &str,
) -> String {
    let mut outlet = MemoryOutlet::new(alloc);
    let mut faults = MemoryOutlet::new(alloc);
    let mut input = file.as_bytes();
    let status = served(rt, alloc, line, &mut input, &mut outlet, &mut faults);
    same(
        rt,
        &(line, status, faults.bytes()),
        &(line, 0, b"".as_slice()),
    );
    let text = String::from_str(alloc, text_of(rt, outlet.bytes()));
    text.expect(rt, NO_MEMORY)
}

/// The text that these bytes are.
pub fn text_of<'a, R: Abort>(rt: &R, bytes: &'a [u8]) -> &'a str {
    std::str::from_utf8(bytes).expect(rt, "no text")
}

/// The scenario of a file.
pub fn scenario_of<R: Abort>(rt: &R, alloc: Global, file: &str) -> Scenario {
    let read = read_scenario(alloc, file.as_bytes());
    read.expect(rt, "the file was refused")
}

/// The file with one of its parts changed.
pub fn changed<R: Abort>(rt: &R, alloc: Global, file: &str, old: &str, new: &str) -> String {
    let file = file.replace(alloc, old, new);
    file.expect(rt, NO_MEMORY)
}

/// The file with this seed in the place of seed 1.
pub fn seeded<R: Abort>(rt: &R, alloc: Global, file: &str, seed: u32) -> String {
    let line = format!(in alloc; "seed = {seed}\n").expect(rt, NO_MEMORY);
    changed(rt, alloc, file, "seed = 1\n", &line)
}
