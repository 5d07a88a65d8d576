//! The crash file, cut after every byte.
use super::answer;
use crate::changes::CRASH_FILE;
use crate::comparisons::same;
use std::alloc::Global;
use std::process::Abort;

/// The lines of the crash file. Of each: how many of its bytes don't yet make a line of TOML where the file ends after
/// them, and what the file gets that is cut after more of them. A key has to be followed by a whole value, text by its
/// quote, and the name of a table by its brackets. Up to the end of the links a key that every file has is missing. So
/// one is where a table of a crash has begun, until it has its tick.
const LINES: [(&str, usize, &str); 20] = [
    ("version = 1\n", 10, "MissingKey"),
    ("processes = 2\n", 12, "MissingKey"),
    ("horizon = 10\n", 10, "MissingKey"),
    ("lookahead = 2\n", 12, "MissingKey"),
    ("seed = 1\n", 7, "MissingKey"),
    ("algorithm = \"none\"\n", 17, "MissingKey"),
    ("\n", 0, "MissingKey"),
    ("[detector]\n", 9, "MissingKey"),
    ("period = 4\n", 9, "MissingKey"),
    ("check = 3\n", 8, "MissingKey"),
    ("timeout = 5\n", 10, "MissingKey"),
    ("grow = 1\n", 7, "MissingKey"),
    ("\n", 0, "MissingKey"),
    ("[link]\n", 5, "MissingKey"),
    ("min = 2\n", 6, "MissingKey"),
    ("max = 2\n", 6, "accepted"),
    ("\n", 0, "accepted"),
    ("[[crash]]\n", 8, "MissingKey"),
    ("process = 2\n", 10, "MissingKey"),
    ("at = 3\n", 5, "accepted"),
];

/// Compares what the crash file gets that is cut after each byte of a line, where so many bytes stand before the line.
fn compare_cuts<R: Abort>(
    rt: &R,
    alloc: Global,
    before: usize,
    (line, broken, name): (&str, usize, &str),
) {
    for more in 1..=line.len() {
        let front = CRASH_FILE
            .as_bytes()
            .get(..before.saturating_add(more))
            .expect(rt, "the file has no such byte");
        assert!(rt; front.ends_with(&line.as_bytes()[..more]));
        let wanted = if more <= broken { "NotToml" } else { name };
        same(
            rt,
            &(answer(alloc, front), line, more),
            &(wanted, line, more),
        );
    }
}

/// Compares so for each line, and answers how many bytes they all have.
fn compare_lines<R: Abort>(rt: &R, alloc: Global, lines: &[(&str, usize, &str)]) -> usize {
    let mut before: usize = 0;
    for line in lines {
        compare_cuts(rt, alloc, before, *line);
        before = before.saturating_add(line.0.len());
    }
    before
}

#[test]
fn cut_after_every_byte(rt: HostRuntime) {
    same(&rt, &answer(rt.alloc(), &[]), &"MissingKey");
    let length = compare_lines(&rt, rt.alloc(), &LINES);
    same(&rt, &length, &CRASH_FILE.len());
}
