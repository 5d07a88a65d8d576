//! Files that are read with drawn outages.
use super::accepted::{EVERY, told};
use super::{answer, name_of};
use crate::changes::{CRASH_FILE, changed};
use crate::comparisons::{NO_MEMORY, same};
use crate::inputs::numbered;
use scenario::{LinkOutage, Scenario, ScenarioError, read_with_outages};
use std::alloc::Global;
use std::process::Abort;

/// An outage: sender, receiver, begin and until.
type Row = (u16, u16, u32, u32);

/// What reading a file with these drawn outages answers.
fn read_with(
    rt: &impl Abort,
    alloc: Global,
    file: &str,
    rows: &[Row],
) -> Result<Scenario, ScenarioError> {
    let mut drawn = Vec::new(alloc);
    for &(from, to, begin, until) in rows {
        let outage = LinkOutage {
            from: numbered(rt, from),
            to: numbered(rt, to),
            begin,
            until,
        };
        drawn.push(outage).expect(rt, NO_MEMORY);
    }
    let table = toml::table_from_str(alloc, file).expect(rt, "no TOML");
    read_with_outages(alloc, &table, &drawn)
}

/// The text of a file, and behind it tables that say what these outages are.
fn with_tables(rt: &impl Abort, alloc: Global, file: &str, rows: &[Row]) -> String {
    let mut text = format!(in alloc; "{file}").expect(rt, NO_MEMORY);
    for (from, to, begin, until) in rows {
        let pair = format!(in alloc; "{text}\n[[outage]]\nfrom = {from}\nto = {to}\n");
        let pair = pair.expect(rt, NO_MEMORY);
        let longer = format!(in alloc; "{pair}begin = {begin}\nuntil = {until}\n");
        text = longer.expect(rt, NO_MEMORY);
    }
    text
}

/// Outages that are drawn for the file with every key: of links that have outages of their own, and of others.
const DRAWN: &[Row] = &[
    (2, 3, 4, 6),
    (1, 2, 0, 1),
    (3, 1, 1, 10_000_000),
    (2, 3, 4, 6),
    (3, 2, 9_999_999, 10_000_000),
    (2, 3, 0, 2),
];

/// What it then stands for: each link's own outages, and behind them the drawn ones in their order.
const EVERY_WITH_THEM: &str =
    "3 10000000 7 12 9223372036854775807 es Some(8); timeout 4 3 5 6 next; \
    1 Some(0) Some(0) >2 7 7 1000 [Outage { begin: 0, until: 1 }] >3 7 9 300 []; \
    2 Some(20) None >1 7 9 300 [] \
    >3 7 9 300 [Outage { begin: 9, until: 10000000 }, Outage { begin: 0, until: 1 }, \
    Outage { begin: 4, until: 6 }, Outage { begin: 4, until: 6 }, Outage { begin: 0, until: 2 }]; \
    3 Some(4294967295) Some(10000000) \
    >1 10 11 0 [Outage { begin: 2, until: 5 }, Outage { begin: 1, until: 10000000 }] \
    >2 7 9 300 [Outage { begin: 9999999, until: 10000000 }]";

#[test]
fn behind_the_files_own(rt: HostRuntime) {
    let alloc = rt.alloc();
    let scenario = read_with(&rt, alloc, EVERY, DRAWN).expect(&rt, "not a scenario");
    let came = told(&rt, alloc, &scenario);
    same(&rt, &came.as_str(), &EVERY_WITH_THEM);
}

/// An outage that fits two processes.
const RIGHT: Row = (2, 1, 3, 5);

const ONE: &str = "version = 1";

const TWO: &str = "version = 2";

/// What stands in the place of a part of the crash file, what is drawn, and what is answered.
const ROWS: &[(&str, &str, &[Row], &str)] = &[
    // version 1 has no key for outages
    (ONE, ONE, &[], "accepted"),
    (ONE, ONE, &[RIGHT], "UnknownKey"),
    (ONE, "version = 3", &[], "Version"),
    (ONE, "version = 3", &[RIGHT], "UnknownKey"),
    (ONE, "version = 2.0", &[RIGHT], "UnknownKey"),
    ("version = 1\n", "", &[RIGHT], "UnknownKey"),
    // two processes and ticks up to 10,000,000
    (ONE, TWO, &[RIGHT], "accepted"),
    (ONE, TWO, &[(1, 2, 0, 10_000_000)], "accepted"),
    (ONE, TWO, &[RIGHT, (3, 1, 0, 1)], "OutageLine"),
    (ONE, TWO, &[(1, 3, 0, 1), RIGHT], "OutageLine"),
    (ONE, TWO, &[(256, 255, 0, 1)], "OutageLine"),
    (ONE, TWO, &[(2, 2, 0, 1)], "OutageLine"),
    (ONE, TWO, &[(2, 1, 4, 4)], "OutageLine"),
    (ONE, TWO, &[(2, 1, 5, 4)], "OutageLine"),
    (ONE, TWO, &[(2, 1, 0, 10_000_001)], "OutageLine"),
    (ONE, TWO, &[(2, 1, 10_000_001, 10_000_002)], "OutageLine"),
    // other refusals come first
    (ONE, "version = 2\nlead = 1", &[(2, 2, 0, 1)], "UnknownKey"),
    (
        "version = 1\nprocesses = 2",
        TWO,
        &[(2, 2, 0, 1)],
        "MissingKey",
    ),
    (
        "version = 1\nprocesses = 2",
        "version = 2\nprocesses = 0",
        &[(2, 2, 0, 1)],
        "Processes",
    ),
    (
        "version = 1\nprocesses = 2",
        "version = 2\nprocesses = 1",
        &[(2, 1, 0, 1)],
        "CrashLine",
    ),
];

/// Each is answered, and so is the file of which the drawn outages are tables.
#[test]
fn answers_by_name(rt: HostRuntime) {
    let alloc = rt.alloc();
    for &(old, new, rows, name) in ROWS {
        let file = changed(&rt, alloc, CRASH_FILE, old, new);
        let came = name_of(&read_with(&rt, alloc, &file, rows));
        same(&rt, &(came, new, rows), &(name, new, rows));
        let text = with_tables(&rt, alloc, &file, rows);
        same(
            &rt,
            &(answer(alloc, text.as_bytes()), new, rows),
            &(name, new, rows),
        );
    }
}

/// A file's own `outage` that is no array of tables stays what it is.
#[test]
fn own_outages_of_other_kinds(rt: HostRuntime) {
    let alloc = rt.alloc();
    let kinds = [
        ("outage = 3", "WrongKind"),
        ("outage = [1]", "WrongKind"),
        ("outage = [{}, 1]", "WrongKind"),
        ("outage = []", "accepted"),
        ("outage = [{}]", "MissingKey"),
        (
            "outage = [{ from = 1, to = 2, begin = 0, until = 1, at = 1 }]",
            "UnknownKey",
        ),
        (
            "outage = [{ from = 1, to = 1, begin = 0, until = 1 }]",
            "OutageLine",
        ),
        (
            "outage = [{ from = 1, to = 2, begin = 0, until = 1 }]",
            "accepted",
        ),
    ];
    for (line, name) in kinds {
        let new = format!(in alloc; "version = 2\n{line}").expect(&rt, NO_MEMORY);
        let file = changed(&rt, alloc, CRASH_FILE, "version = 1", &new);
        let came = name_of(&read_with(&rt, alloc, &file, &[RIGHT]));
        same(&rt, &(came, line), &(name, line));
    }
}
