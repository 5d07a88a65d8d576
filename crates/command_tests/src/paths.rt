//! Files by their paths.

use crate::common::{NO_MEMORY, printed, same};
use crate::files::ONE_CRASH;
use std::fs;

/// What the programs are told to do with a path, before it and after it.
const LINES: [(&str, &str); 5] = [
    ("fdbench check ", ""),
    ("fdbench list ", " --print both"),
    ("fdbench run ", " --workers 2 --window 2 --print trace"),
    ("fdbench compare ", " --workers 2 --window 2"),
    ("fdstudy check ", ""),
];

/// Of a file that lies in the folder they print what they print of standard input with its bytes.
#[test]
fn a_file_in_the_folder(rt: HostRuntime) {
    let alloc = rt.alloc();
    fs::write(&rt, "one_crash.toml", ONE_CRASH).expect(&rt, "no file");
    for (begin, end) in &LINES {
        let by_path = format!(in alloc; "{begin}one_crash.toml{end}");
        let by_input = format!(in alloc; "{begin}-{end}");
        let came = printed(&rt, alloc, &by_path.expect(&rt, NO_MEMORY), "");
        let want = printed(&rt, alloc, &by_input.expect(&rt, NO_MEMORY), ONE_CRASH);
        same(&rt, &came.as_str(), &want.as_str());
    }
    fs::remove_file(&rt, "one_crash.toml").expect(&rt, "no file");
}
