//! Texts of which a part is changed.
use crate::comparisons::NO_MEMORY;
use std::alloc::Global;
use std::process::Abort;

/// Two processes, of which the second crashes at tick 3.
pub const CRASH_FILE: &str = "version = 1
processes = 2
horizon = 10
lookahead = 2
seed = 1
algorithm = \"none\"

[detector]
period = 4
check = 3
timeout = 5
grow = 1

[link]
min = 2
max = 2

[[crash]]
process = 2
at = 3
";

/// The text with a part of it, where it first stands, changed.
pub fn changed(rt: &impl Abort, alloc: Global, text: &str, old: &str, new: &str) -> String {
    let (before, after) = text.split_once(old).expect(rt, "the text has no such part");
    format!(in alloc; "{before}{new}{after}").expect(rt, NO_MEMORY)
}
