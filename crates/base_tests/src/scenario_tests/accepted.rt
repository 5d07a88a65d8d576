//! The scenarios that files stand for.
use crate::changes::{CRASH_FILE, changed};
use crate::comparisons::{NO_MEMORY, same};
use crate::inputs::numbered;
use process_api::{DetectorNumbers, FreshnessNumbers, Pid, TimeoutNumbers, Watch};
use scenario::{AlgorithmKind, Link, Outage, Scenario, read_scenario};
use std::alloc::{AllocError, Global};
use std::process::Abort;

/// A file with the fewest keys.
const FEWEST: &str = "version = 1
processes = 2
horizon = 10
lookahead = 2
seed = 1
algorithm = \"none\"
[detector]
period = 4
check = 3
timeout = 5
[link]
min = 2
max = 3
";

/// What it stands for: defaults are filled in, and both links are the common one.
const FEWEST_IS: &str = "2 10 2 1000000 1 none None; timeout 4 3 5 1 all; \
    1 None None >2 2 3 0 []; 2 None None >1 2 3 0 []";

/// A file with every key.
pub const EVERY: &str = "version = 2
processes = 3
horizon = 10000000
lookahead = 7
limit = 12
seed = 9223372036854775807
algorithm = \"es\"
proposals = [0, 20, 4294967295]
[detector]
period = 4
check = 3
timeout = 5
grow = 6
watch = \"next\"
[share]
period = 8
[link]
min = 7
max = 9
loss = 300
[[links]]
from = 3
to = 1
min = 10
max = 11
[[links]]
from = 1
to = 2
min = 7
max = 7
loss = 1000
[[crash]]
process = 3
at = 10000000
[[crash]]
process = 1
at = 0
[[outage]]
from = 2
to = 3
begin = 9
until = 10000000
[[outage]]
from = 3
to = 1
begin = 2
until = 5
[[outage]]
from = 2
to = 3
begin = 0
until = 1
";

/// What it stands for: of each process its proposal, its crash, and its links to the others with their outages.
const EVERY_IS: &str = "3 10000000 7 12 9223372036854775807 es Some(8); timeout 4 3 5 6 next; \
    1 Some(0) Some(0) >2 7 7 1000 [] >3 7 9 300 []; \
    2 Some(20) None >1 7 9 300 [] \
    >3 7 9 300 [Outage { begin: 9, until: 10000000 }, Outage { begin: 0, until: 1 }]; \
    3 Some(4294967295) Some(10000000) >1 10 11 0 [Outage { begin: 2, until: 5 }] >2 7 9 300 []";

/// The keys of the crash file's detector, and those of freshness points.
const TIMEOUT: &str = "period = 4\ncheck = 3\ntimeout = 5\ngrow = 1\n";

const FRESHNESS: &str = "kind = \"freshness\"\neta = 3\ndelta = 2\n";

/// What these stand for.
const TIMEOUT_IS: &str = "; timeout 4 3 5 1 all;";

const FRESHNESS_IS: &str = "; freshness 3 2 all;";

/// The crash table of the crash file.
const CRASH: &str = "\n[[crash]]\nprocess = 2\nat = 3\n";

/// The link from one process of a scenario to another, and its outages.
fn link_of<'a>(
    rt: &impl Abort,
    scenario: &'a Scenario,
    from: u16,
    to: u16,
) -> (Link, &'a [Outage]) {
    let processes = scenario.processes();
    let (from, to) = (numbered(rt, from), numbered(rt, to));
    if from == to || processes < from.number() || processes < to.number() {
        panic!(rt; "the scenario has no such link");
    }
    (scenario.link(from, to), scenario.outages(from, to))
}

/// Whom a detector watches, as text.
fn watched(watch: Watch) -> &'static str {
    match watch {
        Watch::All => "all",
        Watch::Next => "next",
    }
}

/// Puts the numbers of a detector at the end of a text.
fn push_numbers(text: &mut String, numbers: DetectorNumbers) -> Result<(), AllocError> {
    match numbers {
        DetectorNumbers::Timeout(
            TimeoutNumbers {
                period,
                check,
                timeout,
                grow,
                watch,
            },
        ) => {
            let watch = watched(watch);
            write!(text, "timeout {period} {check} {timeout} {grow} {watch}")
        }
        DetectorNumbers::Freshness(FreshnessNumbers { eta, delta, watch }) => {
            let watch = watched(watch);
            write!(text, "freshness {eta} {delta} {watch}")
        }
    }
}

/// Puts what a scenario says of all processes at the end of a text.
fn push_all(text: &mut String, scenario: &Scenario) -> Result<(), AllocError> {
    let (processes, horizon) = (scenario.processes(), scenario.horizon());
    let (lookahead, limit) = (scenario.lookahead(), scenario.limit());
    let (seed, share) = (scenario.seed(), scenario.share());
    let algorithm = match scenario.algorithm() {
        AlgorithmKind::Idle => "none",
        AlgorithmKind::Strong => "s",
        AlgorithmKind::EventuallyStrong => "es",
    };
    write!(
        text,
        "{processes} {horizon} {lookahead} {limit} {seed} {algorithm} {share:?}; "
    )?;
    push_numbers(text, scenario.detector())
}

/// Puts what a scenario says of one process at the end of a text: its proposal, its crash, and its links to the others.
fn push_one(
    rt: &impl Abort,
    text: &mut String,
    scenario: &Scenario,
    own: u16,
) -> Result<(), AllocError> {
    let process = numbered(rt, own);
    let (proposal, crash) = (scenario.proposal(process), scenario.crash(process));
    write!(text, "; {own} {proposal:?} {crash:?}")?;
    for before in 0..scenario.processes() {
        let to = before + 1;
        if to != own {
            let (link, outages) = link_of(rt, scenario, own, to);
            let (min, max, loss) = (link.min, link.max, link.loss);
            write!(text, " >{to} {min} {max} {loss} {outages:?}")?;
        }
    }
    Ok(())
}

/// What a scenario says, as text.
pub fn told(rt: &impl Abort, alloc: Global, scenario: &Scenario) -> String {
    let mut told = String::new(alloc);
    push_all(&mut told, scenario).expect(rt, NO_MEMORY);
    for before in 0..scenario.processes() {
        push_one(rt, &mut told, scenario, before + 1).expect(rt, NO_MEMORY);
    }
    told
}

/// What the scenario of a file says, as text.
fn told_of(rt: &impl Abort, alloc: Global, file: &str) -> String {
    let scenario = read_scenario(alloc, file.as_bytes()).expect(rt, "not a scenario");
    told(rt, alloc, &scenario)
}

/// What the scenario of a file says is this, or has this part.
fn stands_for(rt: &impl Abort, alloc: Global, file: &str, record: &str, is_all: bool) {
    let told = told_of(rt, alloc, file);
    assert!(rt; told.contains(record), "{record}");
    same(rt, &(told.as_str() == record, record), &(is_all, record));
}

/// The files with the fewest and with all keys, and the crash file in version 2 and with freshness points.
#[test]
fn what_it_stands_for(rt: HostRuntime) {
    let alloc = rt.alloc();
    stands_for(&rt, alloc, FEWEST, FEWEST_IS, true);
    stands_for(&rt, alloc, EVERY, EVERY_IS, true);
    let second = changed(&rt, alloc, CRASH_FILE, "version = 1", "version = 2");
    stands_for(&rt, alloc, &second, TIMEOUT_IS, false);
    let fresh = changed(&rt, alloc, &second, TIMEOUT, FRESHNESS);
    stands_for(&rt, alloc, &fresh, FRESHNESS_IS, false);
}

/// The crash file without its last byte, and without its crash.
#[test]
fn without_its_end(rt: HostRuntime) {
    let alloc = rt.alloc();
    let whole = told_of(&rt, alloc, CRASH_FILE);
    let cut = changed(&rt, alloc, CRASH_FILE, "at = 3\n", "at = 3");
    stands_for(&rt, alloc, &cut, &whole, true);
    stands_for(&rt, alloc, &cut, "; 2 None Some(3) ", false);
    let without = changed(&rt, alloc, CRASH_FILE, CRASH, "");
    stands_for(&rt, alloc, &without, "; 2 None None ", false);
}

/// Two outages of the link from 2 to 1.
const OUTAGES: &str = "
[[outage]]
from = 2
to = 1
begin = 3
until = 7

[[outage]]
from = 2
to = 1
begin = 0
until = 7
";

/// What a process of a scenario proposes as it opens.
fn opening_proposal(rt: &impl Abort, scenario: &Scenario, number: u16) -> Option<u32> {
    let own = numbered(rt, number);
    if scenario.processes() < own.number() {
        panic!(rt; "the scenario has no such process");
    }
    scenario.opening(own).proposal
}

#[test]
fn every_process(rt: HostRuntime) {
    let scenario = read_scenario(rt.alloc(), EVERY.as_bytes()).expect(&rt, "not a scenario");
    let (link, _) = link_of(&rt, &scenario, 3, 1);
    let of_three = opening_proposal(&rt, &scenario, 3);
    let of_four = scenario.proposal(Pid::after(3));
    let own = Link {
        min: 10,
        max: 11,
        loss: 0,
    };
    same(&rt, &(scenario.processes(), link), &(3, own));
    same(&rt, &(of_three, of_four), &(Some(4_294_967_295), None));
}

/// Outages of one link may overlap; each link has its own, and the way back has none of them.
#[test]
fn outages_of_links(rt: HostRuntime) {
    let alloc = rt.alloc();
    let second = changed(&rt, alloc, CRASH_FILE, "version = 1", "version = 2");
    let text = format!(in alloc; "{second}{OUTAGES}").expect(&rt, NO_MEMORY);
    let scenario = read_scenario(alloc, text.as_bytes()).expect(&rt, "not a scenario");
    let (_, there) = link_of(&rt, &scenario, 2, 1);
    let (_, back) = link_of(&rt, &scenario, 1, 2);
    let wanted = [Outage { begin: 3, until: 7 }, Outage { begin: 0, until: 7 }];
    same(&rt, &(there, back.len()), &(wanted.as_slice(), 0));
}

/// Outages of the link from 2 to 1, in no order: they overlap, lie in one another, touch and begin together.
const TANGLED: [(u32, u32); 9] = [
    (40, 50),
    (5, 30),
    (10, 12),
    (30, 31),
    (45, 60),
    (5, 8),
    (62, 64),
    (10, 12),
    (58, 59),
];

/// Whether a letter of the link from one process of a scenario to another is cut at a tick.
fn is_cut(rt: &impl Abort, scenario: &Scenario, from: u16, to: u16, tick: u32) -> bool {
    let processes = scenario.processes();
    let (from, to) = (numbered(rt, from), numbered(rt, to));
    if from == to || processes < from.number() || processes < to.number() {
        panic!(rt; "the scenario has no such link");
    }
    scenario.is_cut(from, to, tick)
}

/// A link is cut at just the ticks of its outages, however these lie. The way back isn't cut.
#[test]
fn ticks_of_tangled_outages(rt: HostRuntime) {
    let alloc = rt.alloc();
    let mut text = changed(&rt, alloc, CRASH_FILE, "version = 1", "version = 2");
    for (begin, until) in TANGLED {
        let table = "[[outage]]\nfrom = 2\nto = 1";
        let longer = format!(in alloc; "{text}\n{table}\nbegin = {begin}\nuntil = {until}\n");
        text = longer.expect(&rt, NO_MEMORY);
    }
    let scenario = read_scenario(alloc, text.as_bytes()).expect(&rt, "not a scenario");
    for tick in 0..70u32 {
        let covered = |(begin, until): &(u32, u32)| *begin <= tick && tick < *until;
        let wanted = TANGLED.iter().any(covered);
        let there = is_cut(&rt, &scenario, 2, 1, tick);
        let back = is_cut(&rt, &scenario, 1, 2, tick);
        same(&rt, &(tick, there, back), &(tick, wanted, false));
    }
}
