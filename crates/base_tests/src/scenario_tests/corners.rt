//! Files that have bytes of other kinds than text and line feeds, and files that repeat a part often.
use super::{answer, name_of};
use crate::changes::{CRASH_FILE, changed};
use crate::comparisons::{NO_MEMORY, same};
use scenario::ScenarioError;
use std::alloc::{AllocError, Global};
use std::process::Abort;

/// Changes of the crash file, and what they get.
const CHANGES: &[(&str, &str, &str)] = &[
    // a byte order mark, which may only come first, and a carriage return, after which a line feed must come
    ("version = 1", "\u{feff}version = 1", "accepted"),
    ("seed = 1", "\u{feff}seed = 1", "NotToml"),
    ("seed = 1", "seed = 1\rlimit = 2", "NotToml"),
    // lines that end with CR LF
    (
        "seed = 1\nalgorithm = \"none\"\n",
        "seed = 1\r\nalgorithm = \"none\"\r\n",
        "accepted",
    ),
];

#[test]
fn forms(rt: HostRuntime) {
    for &(old, new, name) in CHANGES {
        let text = changed(&rt, rt.alloc(), CRASH_FILE, old, new);
        let came = answer(rt.alloc(), text.as_bytes());
        same(&rt, &(came, new), &(name, new));
    }
    same(&rt, &answer(rt.alloc(), b"\xff"), &"NotToml");
}

/// The crash file's one crash.
const CRASH: &str = "[[crash]]\nprocess = 2\nat = 3\n";

/// What stands in the place of a part of the crash file: a text, another one so many times, and a third as often; and
/// what the file then gets.
const REPEATED: &[(&str, &str, &str, &str, usize, &str)] = &[
    // arrays in one another, as deep as the reader goes and deeper
    ("seed = 1", "seed = ", "[", "]", 80, "WrongKind"),
    ("seed = 1", "seed = ", "[", "]", 81, "NotToml"),
    // as many crash tables of one process as a file of 64 processes may have tables of links, and many more
    (
        CRASH,
        "",
        "[[crash]]\nprocess = 1\nat = 1\n",
        "",
        4_096,
        "CrashLine",
    ),
    (
        CRASH,
        CRASH,
        "[[crash]]\nprocess = 2\nat = 4\n",
        "",
        100_000,
        "CrashLine",
    ),
];

/// The crash file with such a text in the place of a part.
fn repeated(
    rt: &impl Abort,
    alloc: Global,
    old: &str,
    first: &str,
    (open, close): (&str, &str),
    times: usize,
) -> String {
    let open = open.repeat(alloc, times).expect(rt, NO_MEMORY);
    let close = close.repeat(alloc, times).expect(rt, NO_MEMORY);
    let new = format!(in alloc; "{first}{open}{close}").expect(rt, NO_MEMORY);
    changed(rt, alloc, CRASH_FILE, old, &new)
}

/// Deep files and large files are read, in time.
#[test]
fn depth_and_length(rt: HostRuntime) {
    let alloc = rt.alloc();
    for &(old, first, open, close, times, name) in REPEATED {
        let text = repeated(&rt, alloc, old, first, (open, close), times);
        let came = answer(alloc, text.as_bytes());
        same(&rt, &(came, old, times), &(name, old, times));
    }
    let refused = ScenarioError::from(AllocError);
    same(&rt, &refused, &ScenarioError::Memory);
    same(&rt, &name_of(&Err(refused)), &"Memory");
}
