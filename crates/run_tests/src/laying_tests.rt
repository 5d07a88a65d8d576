//! Networks laid over a run's table, and keys that are set for all runs, with values from outside: `bench/network.py`,
//! which was written apart from this program, drew the outages.
use crate::comparisons::{NO_MEMORY, same};
use crate::traces::axes;
use std::alloc::Global;
use std::process::Abort;
use study::{Assignment, Grid, Sources, TextError, read_alone, scenario_text};
use toml::Table;

/// Three processes up to tick 100. The link from 1 to 3 and the one from 2 to 3 have tables of their own.
const SCENARIO: &str =
    "version = 2\nprocesses = 3\nhorizon = 100\nlookahead = 1\nseed = 5\nalgorithm = \"none\"\n\
    detector = { period = 1, check = 1, timeout = 3 }\nlink = { min = 1, max = 1 }\n\
    links = [{ from = 1, to = 3, min = 8, max = 8 }, { from = 2, to = 3, min = 6, max = 7 }]\n\
    outage = [{ from = 3, to = 2, begin = 1, until = 2 }]\n";

/// The same with what is laid over it under seed 1: the links of the tables that stay and then those of the network,
/// and the outage of the file and then those that are drawn.
const LAID: &str =
    "version = 2\nprocesses = 3\nhorizon = 100\nlookahead = 1\nseed = 1\nalgorithm = \"none\"\n\
    detector = { period = 1, check = 1, timeout = 3 }\nlink = { min = 1, max = 1 }\n\
    links = [{ from = 2, to = 3, min = 6, max = 7 }, \
    { from = 1, to = 2, min = 2, max = 9, loss = 30 }, { from = 1, to = 3, min = 2, max = 9, loss = 30 }, \
    { from = 2, to = 1, min = 2, max = 9, loss = 30 }, { from = 3, to = 1, min = 4, max = 4, loss = 0 }]\n\
    outage = [{ from = 3, to = 2, begin = 1, until = 2 }, \
    { from = 1, to = 2, begin = 6, until = 16 }, { from = 1, to = 2, begin = 66, until = 76 }, \
    { from = 2, to = 1, begin = 58, until = 65 }, { from = 2, to = 3, begin = 58, until = 65 }]\n";

/// Links from 1 and to it, of which a later table says one again, and two sources.
const NETWORK: &str =
    "links = [{ from = [1], to = \"all\", both = true, min = 2, max = 9, loss = 30 }, \
    { from = [3], to = [1], min = 4, max = 4 }]\n\
    bursts = [{ from = [1], to = [2], gap = 50, length = 10 }]\n\
    pauses = [{ processes = [2], gap = { values = [30, 60] }, length = 7 }]\n";

/// What is set for all runs, the network, and why the run has no text.
const REFUSED: &[(&str, &str, &str)] = &[
    ("network.bursts[1].gap=2", "", "Place(NoNetwork)"),
    ("network.bursts[2].gap=2", NETWORK, "Place(NoElement)"),
    ("version=1", NETWORK, "Place(OlderFile)"),
    (
        "network.bursts[1].gap=0",
        NETWORK,
        "Place(Network(Value { kind: Bursts, number: 1, key: \"gap\", \
        fault: OutOfRange { value: 0, low: 1, high: 10000000 } }))",
    ),
    (
        "network.pauses[1].processes=[2, 4]",
        NETWORK,
        "Place(ProcessAbove(Above { kind: Pauses, number: 1, key: \"processes\", process: Pid { number: 4 } }))",
    ),
    (
        "horizon=10000000\nnetwork.bursts[1].gap=1\nnetwork.bursts[1].length=1",
        NETWORK,
        "Place(TooManyOutages)",
    ),
];

/// A word that sets a key, and what a file then has.
const SET: &[(&str, &str)] = &[
    ("a=es", "a = \"es\""),
    ("a=\"es\"", "a = \"es\""),
    ("a=[1, 2,3]", "a = [1, 2, 3]"),
    ("a=0x10", "a = 16"),
    ("a=-7", "a = -7"),
    ("a={kind=\"x\",eta=100}", "a = { kind = \"x\", eta = 100 }"),
    ("a=b=c", "a = \"b=c\""),
    ("a=[1,", "a = \"[1,\""),
    ("a=true", "a = true"),
    ("a.b=1.5", "a = { b = 1.5 }"),
];

/// Words that set nothing, and why.
const NOTHING_SET: &[(&str, &str)] = &[
    ("horizon", "NoEquals"),
    ("seed=1", "Key(Seed)"),
    ("=1", "Key(NoKey)"),
    ("horizon=", "NoValue"),
    ("network.bursts[0].gap=1", "Key(NoKey)"),
    ("network.bursts.gap=1", "Key(NoKey)"),
    ("network.bursts[1].gap.x=1", "Key(NoKey)"),
    ("other.bursts[1].gap=1", "Key(NoKey)"),
];

/// What is varied and what is set for all runs, and the first key that is set twice.
const TWICE: &[(&str, &str, &str)] = &[
    ("a=1", "b=1\nc=1", ""),
    ("a=1", "b=1\na=1\nb=2", "a"),
    ("a=1", "b=1\nc=1\nb=2\nc=2", "b"),
    (
        "network.bursts[*].gap=1",
        "bursts[1].gap=1\nnetwork.bursts[2].gap=1",
        "network.bursts[2].gap",
    ),
];

/// The table of a text.
fn table(rt: &impl Abort, alloc: Global, text: &str) -> Table {
    toml::table_from_str(alloc, text).expect(rt, "no TOML")
}

/// A table as it is printed.
fn printed(rt: &impl Abort, alloc: Global, table: &Table) -> String {
    toml::table_to_string(alloc, table).expect(rt, NO_MEMORY)
}

/// The files: a text of a network's that is empty is none.
fn files(rt: &impl Abort, alloc: Global, scenario: &str, network: &str) -> Sources {
    let mut sources = Sources::of_scenario(table(rt, alloc, scenario));
    if !network.is_empty() {
        sources.network = Some(table(rt, alloc, network));
    }
    sources
}

/// What some lines set.
fn assignments(rt: &impl Abort, alloc: Global, lines: &str) -> Vec<Assignment> {
    let mut all = Vec::new(alloc);
    for line in lines.lines() {
        let one = Assignment::parse(alloc, line).expect(rt, "no assignment");
        all.push(one).expect(rt, NO_MEMORY);
    }
    all
}

/// A grid under one seed.
fn grid(rt: &impl Abort, alloc: Global, vary: &str, seed: u64) -> Grid {
    let vary = axes(rt, alloc, vary);
    Grid::new(alloc, vary, Vec::new(alloc), Vec::new(alloc), seed, seed).expect(rt, "no grid")
}

/// The text of the first run of files.
fn first_text(
    rt: &impl Abort,
    alloc: Global,
    sources: &Sources,
    grid: &Grid,
) -> Result<String, TextError> {
    assert!(rt; grid.points() > 0 && grid.runs() > 0);
    let point = grid.point(alloc, 0).expect(rt, NO_MEMORY);
    let run = grid.run(alloc, 0).expect(rt, NO_MEMORY);
    scenario_text(alloc, sources, &point, &run)
}

#[test]
fn laid(rt: HostRuntime) {
    let alloc = rt.alloc();
    let sources = files(&rt, alloc, SCENARIO, NETWORK);
    let text = first_text(&rt, alloc, &sources, &grid(&rt, alloc, "", 1)).expect(&rt, "no text");
    let wanted = printed(&rt, alloc, &table(&rt, alloc, LAID));
    same(&rt, &text.as_str(), &wanted.as_str());
}

/// An axis' value of the network's file is that of the run; over a file of version 1 links can be laid.
#[test]
fn varied(rt: HostRuntime) {
    let alloc = rt.alloc();
    let network = "links = [{ from = [1], to = [2], min = 3, max = 3, loss = 1 }]";
    let older = "version = 1\nprocesses = 2\nhorizon = 9\nseed = 4";
    let sources = files(&rt, alloc, older, network);
    let grid = grid(&rt, alloc, "network.links[1].loss=7", 4);
    let text = first_text(&rt, alloc, &sources, &grid).expect(&rt, "no text");
    let wanted = "version = 1\nprocesses = 2\nhorizon = 9\nseed = 4\n\
        links = [{ from = 1, to = 2, min = 3, max = 3, loss = 7 }]";
    let wanted = printed(&rt, alloc, &table(&rt, alloc, wanted));
    same(&rt, &text.as_str(), &wanted.as_str());
}

/// Nothing is laid over a table whose processes no run has, nor over what is no array of tables.
#[test]
fn not_laid(rt: HostRuntime) {
    let alloc = rt.alloc();
    for scenario in [
        "version = 2\nprocesses = 257\nhorizon = 9\nseed = 4",
        "version = 2\nprocesses = 3\nhorizon = 100\nseed = 4\nlinks = 1\noutage = [1]",
    ] {
        let sources = files(&rt, alloc, scenario, NETWORK);
        let text = first_text(&rt, alloc, &sources, &grid(&rt, alloc, "", 4)).expect(
            &rt, "no text",
        );
        let wanted = printed(&rt, alloc, &sources.scenario);
        same(&rt, &text.as_str(), &wanted.as_str());
    }
}

/// The file's own seed draws, where files stand alone.
#[test]
fn alone(rt: HostRuntime) {
    let alloc = rt.alloc();
    let mut sources = files(&rt, alloc, SCENARIO, NETWORK);
    let set = assignments(&rt, alloc, "limit=90");
    sources.set(alloc, &set).expect(&rt, "not set");
    let scenario = read_alone(alloc, &sources).expect(&rt, "no scenario");
    same(&rt, &scenario.seed(), &5);
    same(&rt, &scenario.limit(), &90);
}

#[test]
fn not_to_be_laid(rt: HostRuntime) {
    let alloc = rt.alloc();
    for &(set, network, wanted) in REFUSED {
        let mut sources = files(&rt, alloc, SCENARIO, network);
        let told = match sources.set(alloc, &assignments(&rt, alloc, set)) {
            Ok(()) => match first_text(&rt, alloc, &sources, &grid(&rt, alloc, "", 1)) {
                Ok(_) => panic!(rt; "there is a text"),
                Err(error) => format!(in alloc; "{error:?}").expect(&rt, NO_MEMORY),
            },
            Err(error) => format!(in alloc; "Place({error:?})").expect(&rt, NO_MEMORY),
        };
        same(&rt, &told.as_str(), &wanted);
    }
}

#[test]
fn set(rt: HostRuntime) {
    let alloc = rt.alloc();
    for &(word, wanted) in SET {
        let mut sources = files(&rt, alloc, "", "");
        let all = assignments(&rt, alloc, word);
        sources.set(alloc, &all).expect(&rt, "not set");
        let text = printed(&rt, alloc, &sources.scenario);
        let wanted = printed(&rt, alloc, &table(&rt, alloc, wanted));
        same(&rt, &text.as_str(), &wanted.as_str());
    }
}

#[test]
fn nothing_set(rt: HostRuntime) {
    let alloc = rt.alloc();
    for &(word, wanted) in NOTHING_SET {
        let told = match Assignment::parse(alloc, word) {
            Ok(_) => panic!(rt; "something is set"),
            Err(error) => format!(in alloc; "{error:?}").expect(&rt, NO_MEMORY),
        };
        same(&rt, &told.as_str(), &wanted);
    }
}

#[test]
fn set_twice(rt: HostRuntime) {
    let alloc = rt.alloc();
    for &(vary, set, wanted) in TWICE {
        let grid = grid(&rt, alloc, vary, 1);
        let all = assignments(&rt, alloc, set);
        let told = match grid.set_twice(alloc, &all).expect(&rt, NO_MEMORY) {
            Some(key) => key.text(alloc).expect(&rt, NO_MEMORY),
            None => String::new(alloc),
        };
        same(&rt, &told.as_str(), &wanted);
    }
}
