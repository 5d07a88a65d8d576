//! Outages beside values from outside. These were drawn by `bench/network.py`, which was written apart from this
//! program, from `bench/one_of_each.toml`, which says the same as the network here.
ghost use Rattle.std.specs.Prelude.{◌≡◌, ◌≤◌, ◌∷◌, [], IfOk};
ghost use Rattle.process_api.specs.Place.{most_processes};
ghost use Rattle.network.specs.Ranges.{IsNetwork, IsReplay, IsRhythm, IsSpell, IsTicks};

use network::{
    Burst, Cut, Group, LinkSet, Network, NetworkError, Pause, Replay, Rhythm, Shape, Spell,
    TableFault, TableKind, ValueFault, draw, process_above, read_network,
};
use process_api::{Pid, ProcSet};
use scenario_record::Outage;
use std::alloc::Global;
use std::process::Abort;

const NO_MEMORY: &str = "memory was refused";

/// What the network has for processes 1 to 3 up to tick 100 under seed 1: sender, receiver, begin and until.
const DRAWN: [(u16, u16, u32, u32); 32] = [
    // bursts
    (1, 3, 21, 24),
    (1, 3, 30, 33),
    (1, 3, 75, 78),
    (2, 1, 3, 12),
    (2, 1, 35, 44),
    (2, 3, 9, 18),
    (2, 3, 20, 23),
    (3, 1, 72, 81),
    // cuts
    (1, 2, 25, 44),
    (1, 3, 25, 44),
    (2, 1, 25, 44),
    (3, 1, 25, 44),
    (1, 2, 84, 100),
    (1, 3, 84, 100),
    (2, 1, 84, 100),
    (3, 1, 84, 100),
    // pauses
    (2, 1, 58, 65),
    (2, 3, 58, 65),
    (3, 1, 3, 10),
    (3, 2, 3, 10),
    (3, 1, 40, 47),
    (3, 2, 40, 47),
    // replays
    (2, 3, 0, 1),
    (2, 3, 11, 13),
    (2, 3, 31, 46),
    (2, 3, 56, 58),
    (2, 3, 76, 91),
    (3, 2, 0, 2),
    (3, 2, 12, 14),
    (3, 2, 32, 47),
    (3, 2, 57, 59),
    (3, 2, 77, 92),
];

/// A list of one.
fn one<R: Abort, T: Drop>(rt: &R, alloc: Global, item: T) -> Vec<T>
    ensures { result.items ≡ item ∷ [] }
{
    let mut items = Vec::new(alloc);
    items.push(item).expect(rt, NO_MEMORY);
    items
}

/// A list of two.
fn two<R: Abort, T: Drop>(rt: &R, alloc: Global, first: T, second: T) -> Vec<T>
    ensures { result.items ≡ first ∷ second ∷ [] }
{
    let mut items = one(rt, alloc, first);
    items.push(second).expect(rt, NO_MEMORY);
    items
}

/// One of two values.
fn values<R: Abort>(rt: &R, alloc: Global, first: u32, second: u32) -> Spell
    requires first { IsTicks first }
    requires second { IsTicks second }
    ensures { IsSpell result }
{
    Spell::Values(two(rt, alloc, first, second))
}

/// The group of these processes.
fn group<R: Abort>(rt: &R, numbers: &[u16]) -> Group {
    let mut members = ProcSet::new();
    for number in numbers {
        members.insert(Pid::new(*number).expect(rt, "no process"));
    }
    Group::Members(members)
}

fn burst<R: Abort>(rt: &R, alloc: Global) -> Burst
    ensures { IsRhythm result.rhythm }
{
    Burst {
        links: LinkSet {
            from: Group::All,
            to: group(rt, &[1, 3]),
            both: false,
        },
        rhythm: Rhythm {
            gap: Spell::Mean(40),
            length: values(rt, alloc, 3, 9),
        },
    }
}

fn cut<R: Abort>(rt: &R) -> Cut
    ensures { IsRhythm result.rhythm }
{
    Cut {
        one: group(rt, &[1]),
        other: group(rt, &[2, 3]),
        rhythm: Rhythm {
            gap: Spell::Ticks(40),
            length: Spell::Mean(8),
        },
    }
}

fn pause<R: Abort>(rt: &R, alloc: Global) -> Pause
    ensures { IsRhythm result.rhythm }
{
    Pause {
        processes: group(rt, &[2, 3]),
        rhythm: Rhythm {
            gap: values(rt, alloc, 30, 60),
            length: Spell::Ticks(7),
        },
    }
}

fn replay<R: Abort>(rt: &R, alloc: Global) -> Replay
    ensures { IsReplay result }
{
    let first = Outage {
        begin: 10,
        until: 12,
    };
    let second = Outage {
        begin: 30,
        until: 45,
    };
    Replay {
        links: LinkSet {
            from: group(rt, &[3]),
            to: group(rt, &[2]),
            both: true,
        },
        lasts: 45,
        outages: two(rt, alloc, first, second),
    }
}

/// A network of one table of each kind of source.
fn network<R: Abort>(rt: &R, alloc: Global) -> Network
    ensures { IsNetwork result }
{
    Network {
        links: Vec::new(alloc),
        bursts: one(rt, alloc, burst(rt, alloc)),
        cuts: one(rt, alloc, cut(rt)),
        pauses: one(rt, alloc, pause(rt, alloc)),
        replays: one(rt, alloc, replay(rt, alloc)),
    }
}

#[test]
fn one_table_of_each_kind(rt: HostRuntime) {
    let alloc = rt.alloc();
    assert_drawn(&rt, alloc, &network(&rt, alloc));
}

/// `bench/one_of_each.toml`.
const ONE_OF_EACH: &str = r#"
[[bursts]]
from = "all"
to = [1, 3]
gap = { mean = 40 }
length = { values = [3, 9] }

[[cuts]]
between = [[1], [2, 3]]
gap = 40
length = { mean = 8 }

[[pauses]]
processes = [2, 3]
gap = { values = [30, 60] }
length = 7

[[replays]]
from = [3]
to = [2]
both = true
lasts = 45
outages = [[30, 45], [10, 12]]
"#;

/// The network of a file with this text.
fn network_of<R: Abort>(rt: &R, alloc: Global, text: &str) -> Result<Network, NetworkError>
    ensures { IfOk result IsNetwork }
{
    let table = toml::table_from_str(alloc, text).expect(rt, "no TOML");
    read_network(alloc, &table)
}

/// What the network draws for processes 1 to 3 up to tick 100 under seed 1 is what is wanted.
fn assert_drawn<R: Abort>(rt: &R, alloc: Global, network: &Network)
    requires { IsNetwork network.now }
{
    let drawn = draw(alloc, network, 3, 100, 1).expect(rt, "no outages");
    assert_eq!(rt; drawn.len(), DRAWN.len());
    for (came, wanted) in drawn.iter().zip(&DRAWN) {
        assert_eq!(rt; came.from.number(), wanted.0);
        assert_eq!(rt; came.to.number(), wanted.1);
        assert_eq!(rt; came.begin, wanted.2);
        assert_eq!(rt; came.until, wanted.3);
    }
}

#[test]
fn the_file_of_one_table_of_each_kind(rt: HostRuntime) {
    let alloc = rt.alloc();
    let network = network_of(&rt, alloc, ONE_OF_EACH).expect(&rt, "no network");
    assert_drawn(&rt, alloc, &network);
}

/// What is wrong with a value of a file with this text.
fn value_fault<R: Abort>(rt: &R, alloc: Global, text: &str) -> ValueFault {
    match network_of(rt, alloc, text) {
        Err(NetworkError::Value { fault, .. }) => fault,
        _ => rt.abort(),
    }
}

/// What is wrong with the values of a table of a file with this text together.
fn table_fault<R: Abort>(rt: &R, alloc: Global, text: &str) -> TableFault {
    match network_of(rt, alloc, text) {
        Err(NetworkError::Table { fault, .. }) => fault,
        _ => rt.abort(),
    }
}

#[test]
fn values_are_refused(rt: HostRuntime) {
    let alloc = rt.alloc();
    let missing = "[[pauses]]\nprocesses = [1]\ngap = 1\n";
    let other = "[[pauses]]\nprocesses = [1]\ngap = 1\nlength = { mean = 1, values = [1] }\n";
    let nobody = "[[pauses]]\nprocesses = []\ngap = 1\nlength = 1\n";
    let above = "[[pauses]]\nprocesses = [256, 257]\ngap = 1\nlength = 1\n";
    assert_eq!(rt; value_fault(&rt, alloc, missing), ValueFault::Missing);
    assert_eq!(rt;
        value_fault(&rt, alloc, other),
        ValueFault::OtherShape(Shape::Spell)
    );
    assert_eq!(rt; value_fault(&rt, alloc, nobody), ValueFault::NoMember);
    let range = ValueFault::OutOfRange {
        value: 257,
        low: 1,
        high: 256,
    };
    assert_eq!(rt; value_fault(&rt, alloc, above), range);
}

#[test]
fn tables_are_refused(rt: HostRuntime) {
    let alloc = rt.alloc();
    let link = "[[links]]\nfrom = \"all\"\nto = \"all\"\nmin = 3\nmax = 2\n";
    let cut = "[[cuts]]\nbetween = [[1, 2], [3, 2]]\ngap = 1\nlength = 1\n";
    let replay = "[[replays]]\nfrom = [1]\nto = [2]\nlasts = 9\noutages = [[0, 9], [5, 10]]\n";
    let delays = TableFault::MinAboveMax { min: 3, max: 2 };
    let common = TableFault::CommonMember { process: 2 };
    let outage = TableFault::NotWithin {
        begin: 5,
        until: 10,
        lasts: 9,
    };
    assert_eq!(rt; table_fault(&rt, alloc, link), delays);
    assert_eq!(rt; table_fault(&rt, alloc, cut), common);
    assert_eq!(rt; table_fault(&rt, alloc, replay), outage);
}

#[test]
fn a_process_above_the_run(rt: HostRuntime) {
    let alloc = rt.alloc();
    let network = network_of(&rt, alloc, ONE_OF_EACH).expect(&rt, "no network");
    assert!(rt; process_above(&network, 3).is_none());
    let Some(above) = process_above(&network, 2) else {
        rt.abort()
    };
    assert_eq!(rt; above.kind, TableKind::Bursts);
    assert_eq!(rt; above.number, 1);
    assert_eq!(rt; above.key, "to");
    assert_eq!(rt; above.process.number(), 3);
}
