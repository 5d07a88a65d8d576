//! Machines of small scenarios, at their start.
use crate::comparisons::{NO_MEMORY, same};
use crate::driving::drive_process;
use crate::inputs::Given::Start;
use machines::{Machine, machines_of};
use process_api::Process;
use scenario::{Scenario, read_scenario};
use std::alloc::Global;
use std::process::Abort;

/// What a detector with time-outs says in its table.
const TIMEOUTS: &str = "period = 4\ncheck = 3\ntimeout = 5\n";

/// What one with freshness points says there.
const FRESHNESS: &str = "kind = \"freshness\"\neta = 3\ndelta = 2\n";

/// What a reduction over it says in its table.
const SHARE: &str = "[share]\nperiod = 8\n";

/// Two processes with an algorithm, a detector, and what else a file says.
fn scenario_of(
    rt: &impl Abort,
    alloc: Global,
    algorithm: &str,
    detector: &str,
    rest: &str,
) -> Scenario {
    let file = format!(in alloc;
        "version = 2\nprocesses = 2\nhorizon = 10\nlookahead = 2\nseed = 1\nalgorithm = {algorithm}
[detector]\n{detector}[link]\nmin = 2\nmax = 2\n{rest}"
    );
    let file = file.expect(rt, NO_MEMORY);
    read_scenario(alloc, file.as_bytes()).expect(rt, "not a scenario")
}

/// Algorithm, detector and what else the file says, and what the two machines do: a letter to the other process, a Beat
/// wake and a Check wake; with freshness points no letter. With a reduction a Share wake besides. With an algorithm its
/// first round, and in it a vector to both processes, or an estimate to the coordinator.
const MACHINES: &[(&str, &str, &str, &str, &str)] = &[
    (
        "\"none\"",
        TIMEOUTS,
        "",
        "alive>2 Beat+4 Check+3",
        "alive>1 Beat+4 Check+3",
    ),
    (
        "\"none\"",
        FRESHNESS,
        "",
        "Beat+3 Check+5",
        "Beat+3 Check+5",
    ),
    (
        "\"none\"",
        TIMEOUTS,
        SHARE,
        "alive>2 Beat+4 Check+3 Share+8",
        "alive>1 Beat+4 Check+3 Share+8",
    ),
    (
        "\"none\"",
        FRESHNESS,
        SHARE,
        "Beat+3 Check+5 Share+8",
        "Beat+3 Check+5 Share+8",
    ),
    (
        "\"s\"\nproposals = [1, 2]",
        TIMEOUTS,
        "",
        "alive>2 Beat+4 Check+3 round:1 vector:1[1 -]>1 vector:1[1 -]>2",
        "alive>1 Beat+4 Check+3 round:1 vector:1[- 2]>1 vector:1[- 2]>2",
    ),
    (
        "\"es\"\nproposals = [1, 2]",
        TIMEOUTS,
        "",
        "alive>2 Beat+4 Check+3 round:1 estimate:1:1:0>2",
        "alive>1 Beat+4 Check+3 round:1 estimate:1:2:0>2",
    ),
];

/// The machine is of this process; it starts, and does what is wanted.
fn starts(rt: &impl Abort, alloc: Global, machine: Option<Machine>, number: u16, wanted: &str) {
    let mut machine = machine.expect(rt, "no machine");
    same(rt, &machine.pid().number(), &number);
    drive_process(rt, alloc, &mut machine, &[(0, Start, wanted)]);
}

#[test]
fn both_start(rt: HostRuntime) {
    let alloc = rt.alloc();
    for &(algorithm, detector, rest, first, second) in MACHINES {
        let scenario = scenario_of(&rt, alloc, algorithm, detector, rest);
        let mut machines = machines_of(alloc, &scenario).expect(&rt, NO_MEMORY);
        starts(&rt, alloc, machines.pop(), 2, second);
        starts(&rt, alloc, machines.pop(), 1, first);
        assert!(rt; machines.is_empty());
    }
}
