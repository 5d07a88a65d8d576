//! Scenarios, axes and traces for tests, these in the form in which a trace is printed.
ghost use Rattle.{std.specs.Prelude.{IsTrue, OnOk}, process_api.specs.Order.{is_rising}};

use crate::comparisons::NO_MEMORY;
use process_api::{Entry, Key, Kind, Note, Pid, Trace};
use scenario::{Scenario, read_scenario};
use std::alloc::{AllocError, Global};
use std::process::Abort;
use study::Axis;

/// Tables by which process 2 crashes at tick 3.
pub const CRASH_AT_3: &str = "[[crash]]
process = 2
at = 3
";

/// The trace of two processes, of which the second crashes at tick 3 and the first suspects it at tick 9.
pub const ONE_CRASH: &str = "0,1,1,0,start,1,0,
0,2,2,0,start,1,0,
2,1,2,1,alive,0,0,
2,2,1,1,alive,0,0,
3,1,1,2,check,0,0,
3,2,2,2,dead,0,0,
4,1,1,1,beat,1,0,
4,2,2,1,dead,0,0,
6,1,1,3,check,0,0,
6,2,1,2,dead,0,0,
8,1,1,4,beat,1,0,
9,1,1,5,check,0,0,suspect:1:2
";

/// Of three processes two suspect process 2 by the reduction, after one of them by its base detector.
pub const SHARED: &str = "6,1,1,5,check,0,0,suspect:1:2
9,1,1,11,suspects,0,0,suspect:2:2
10,3,1,6,suspects,0,0,suspect:2:2
";

/// The file of a scenario of so many processes and ticks, with these keys and tables.
pub fn file_of<R: Abort>(
    rt: &R,
    alloc: Global,
    processes: u16,
    horizon: u32,
    more: &str,
) -> String {
    let text = format!(in alloc;
        "version = 1
processes = {processes}
horizon = {horizon}
lookahead = 2
seed = 1
algorithm = \"none\"
{more}
[detector]
period = 4
check = 3
timeout = 5
[link]
min = 2
max = 2
"
    );
    text.expect(rt, NO_MEMORY)
}

/// The scenario of that file.
pub fn scenario_of<R: Abort>(
    rt: &R,
    alloc: Global,
    processes: u16,
    horizon: u32,
    more: &str,
) -> Scenario {
    let file = file_of(rt, alloc, processes, horizon, more);
    read_scenario(alloc, file.as_bytes()).expect(rt, "not a scenario")
}

/// The axes that words say, a line each.
pub fn axes(rt: &impl Abort, alloc: Global, words: &str) -> Vec<Axis> {
    let mut axes = Vec::new(alloc);
    for word in words.lines() {
        let axis = Axis::parse(alloc, word).expect(rt, "no axis");
        axes.push(axis).expect(rt, NO_MEMORY);
    }
    axes
}

/// The process with this number.
pub fn pid<R: Abort>(rt: &R, number: u16) -> Pid {
    Pid::new(number).expect(rt, "not a process")
}

/// A part of a row, which isn't missing.
pub fn word_of<'a, R: Abort>(rt: &R, part: Option<&'a str>) -> &'a str {
    part.expect(rt, "a part of the row is missing")
}

pub fn pid_of<R: Abort>(rt: &R, part: Option<&str>) -> Pid {
    let number = word_of(rt, part).parse::<u16>();
    pid(rt, number.expect(rt, "not a number"))
}

pub fn number_of<R: Abort>(rt: &R, part: Option<&str>) -> u64 {
    word_of(rt, part).parse::<u64>().expect(rt, "not a number")
}

pub fn small_number_of<R: Abort>(rt: &R, part: Option<&str>) -> u32 {
    word_of(rt, part).parse::<u32>().expect(rt, "not a number")
}

fn note_of<R: Abort>(rt: &R, text: &str) -> Note {
    let mut parts = text.split(':');
    let word = word_of(rt, parts.next());
    let first = parts.next();
    match word {
        "round" => Note::Round(number_of(rt, first)),
        "decided" => Note::Decided(small_number_of(rt, first)),
        "novalue" => Note::NoValue,
        _ => {
            let layer = word_of(rt, first).parse::<u8>();
            let layer = layer.expect(rt, "not a number");
            let who = pid_of(rt, parts.next());
            match word {
                "suspect" => Note::Suspect { layer, who },
                "trust" => Note::Trust { layer, who },
                _ => panic!(rt; "no such note"),
            }
        }
    }
}

/// An entry of the form `tick,receiver,sender,number,kind,sent,lost,notes`. Its kind and its counts, which no judge,
/// no measure and no picture reads, are left out.
fn entry_of<R: Abort>(rt: &R, alloc: Global, row: &str) -> Entry {
    let mut parts = row.split(',');
    let key = Key {
        tick: small_number_of(rt, parts.next()),
        receiver: pid_of(rt, parts.next()),
        sender: pid_of(rt, parts.next()),
        number: number_of(rt, parts.next()),
    };
    let mut notes = Vec::new(alloc);
    for text in parts.nth(3).unwrap_or("").split(' ') {
        if !text.is_empty() {
            notes.push(note_of(rt, text)).expect(rt, NO_MEMORY);
        }
    }
    Entry {
        key,
        kind: Kind::Start,
        sent: 0,
        lost: 0,
        notes,
    }
}

/// Adds an entry whose key comes after all others.
fn add<R: Abort>(rt: &R, entries: &mut Vec<Entry>, entry: Entry) -> Result<(), AllocError>
    requires { IsTrue (is_rising entries.old.items) }
    ensures { OnOk result (IsTrue (is_rising entries.new.items)) }
{
    let count = entries.len();
    if count > 0 && !entries[count - 1].key.is_before(&entry.key) {
        panic!(rt; "the keys don't rise");
    }
    entries.push(entry)?;
    Ok(())
}

/// The trace of these rows.
pub fn trace_of<R: Abort>(rt: &R, alloc: Global, rows: &str) -> Trace {
    let mut entries: Vec<Entry> = Vec::new(alloc);
    for row in rows.lines() {
        add(rt, &mut entries, entry_of(rt, alloc, row)).expect(rt, NO_MEMORY);
    }
    Trace::new(entries)
}
