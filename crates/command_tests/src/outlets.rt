//! Outlets that fail.

use crate::common::{NO_MEMORY, printed, same, served};
use crate::files::{ONE_CRASH, ONE_PROCESS};
use bench_commands::fault::Fault as BenchFault;
use qos_report::{FuseOutlet, MemoryOutlet, Outlet, StreamOutlet};
use reporting::put_all;
use shell::finish;
use std::alloc::Global;
use std::io::{self, Write};
use std::marker::Sync;
use std::process::{Abort, ExitCode};
use std::rt::Files;
use std::sync::Wait;
use std::thread::Threads;
use std::time::Clock;
use study_commands::fault::Fault as StudyFault;

/// A writer that takes everything and cannot send it on.
#[derive(Drop)]
struct Stuck;

impl Write for Stuck {
    fn write(&mut self, piece: &[u8]) -> io::Result<usize> {
        Ok(piece.len())
    }

    fn flush(&mut self) -> io::Result<()> {
        Err(io::Error::from(io::ErrorKind::Other))
    }
}

/// Lines, and the first 10 bytes of what they print of one crash.
const TEN_BYTES: [(&str, &str); 8] = [
    ("fdbench list - --print trace", "tick,recei"),
    (
        "fdbench run - --workers 2 --window 2 --print trace",
        "tick,recei",
    ),
    ("fdstudy sweep - --seeds 1", "layer,runs"),
    ("fdstudy check -", "ok: 2 proc"),
    ("fdstudy letters -", "sent,sende"),
    ("fdstudy draw - --as suspicions", "<svg xmlns"),
    ("fdstudy draw - --as letters", "<svg xmlns"),
    ("fdstudy sweep --help", "Runs a stu"),
];

/// What is told of a write that failed.
fn write_failed(line: &str) -> &'static [u8] {
    if line.starts_with("fdbench") {
        b"fdbench: run: Write\n"
    } else {
        b"fdstudy: run: Write\n"
    }
}

/// An outlet that takes 10 bytes and then fails holds the first 10 of the text, whatever the command.
#[test]
fn ten_bytes(rt: HostRuntime) {
    let alloc = rt.alloc();
    for (line, wanted) in &TEN_BYTES {
        let mut outlet = FuseOutlet::new(alloc, 10, 1);
        let mut faults = MemoryOutlet::new(alloc);
        let mut input = ONE_CRASH.as_bytes();
        let status = served(&rt, alloc, line, &mut input, &mut outlet, &mut faults);
        let came = (status, outlet.failures(), outlet.bytes(), faults.bytes());
        let want = (4, 1, wanted.as_bytes(), write_failed(line));
        same(&rt, &came, &want);
    }
}

/// A writer that is full ends a run in the same way.
#[test]
fn full_writer(rt: HostRuntime) {
    let alloc = rt.alloc();
    let mut room = [0u8; 10];
    let mut outlet = StreamOutlet::new(room.as_mut_slice());
    let mut faults = MemoryOutlet::new(alloc);
    let (line, mut input) = ("fdbench list - --print trace", ONE_PROCESS.as_bytes());
    let status = served(&rt, alloc, line, &mut input, &mut outlet, &mut faults);
    same(&rt, &(status, outlet.failures()), &(4, 1));
    same(&rt, &room.as_slice(), &b"tick,recei".as_slice());
}

/// Lines, and in how many puts each writes what it prints of one crash. By the list a text is one piece; by windows of
/// 2 ticks the first line is, the rows of each of five windows, and the report. Then whether an outlet that takes a
/// byte at a time is to fail at each put, and not after the last alone.
const LINES: [(&str, u64, bool); 7] = [
    ("fdbench list - --print both", 1, true),
    ("fdbench list - --print report", 1, false),
    ("fdbench list - --print trace", 1, false),
    ("fdbench run - --workers 2 --window 2 --print both", 7, true),
    (
        "fdbench run - --workers 2 --window 2 --print report",
        1,
        false,
    ),
    (
        "fdbench run - --workers 2 --window 2 --print trace",
        6,
        false,
    ),
    ("fdbench compare - --workers 2 --window 2", 1, true),
];

/// A line ends well over an outlet that takes at most `most` bytes at a put, `times` times, or with one put that
/// failed. Then the outlet holds what went out before, and nothing was tried again.
fn ends<R: Files + Threads + Wait + Sync + Clock + Abort>(
    rt: &R,
    alloc: Global,
    line: &str,
    most: usize,
    times: u64,
    whole: &[u8],
    is_done: bool,
) {
    let mut outlet = FuseOutlet::new(alloc, most, times);
    let mut faults = MemoryOutlet::new(alloc);
    let mut input = ONE_CRASH.as_bytes();
    let status = served(rt, alloc, line, &mut input, &mut outlet, &mut faults);
    let bytes = outlet.bytes();
    let is_front = whole.starts_with(bytes) && (bytes.len() == whole.len() || !is_done);
    let came = (line, status, outlet.failures(), faults.bytes(), is_front);
    let want = if is_done {
        (line, 0, 0, b"".as_slice(), true)
    } else {
        (line, 4, 1, write_failed(line), true)
    };
    same(rt, &came, &want);
}

/// An outlet that fails at a put, be it the first or a later one: a run fails at each of the puts that it makes, and
/// ends well where none fails. One that takes a byte at a time gets every byte.
#[test]
fn each_write_fails(rt: HostRuntime) {
    let alloc = rt.alloc();
    for (line, puts, each) in &LINES {
        let want = printed(&rt, alloc, line, ONE_CRASH);
        let whole = want.as_bytes();
        let count = whole.len() as u64;
        let first = if *each { 0 } else { count };
        for (most, first, puts) in [(usize::MAX, 0, *puts), (1, first, count)] {
            for before in first..=puts {
                ends(&rt, alloc, line, most, before, whole, before == puts);
            }
        }
    }
}

/// `check` and help end in the same way where there is no room for what they write.
#[test]
fn no_room(rt: HostRuntime) {
    let alloc = rt.alloc();
    for line in ["fdbench check -", "fdbench list --help"] {
        let mut room = [0u8; 1];
        let mut outlet = StreamOutlet::new(room.as_mut_slice());
        let mut faults = MemoryOutlet::new(alloc);
        let mut input = ONE_CRASH.as_bytes();
        let status = served(&rt, alloc, line, &mut input, &mut outlet, &mut faults);
        same(&rt, &(status, faults.bytes()), &(4, write_failed(line)));
    }
}

/// Faults that cannot be told change no status.
#[test]
fn nobody_is_told(rt: HostRuntime) {
    let alloc = rt.alloc();
    for (path, want) in &[
        ("no_such_folder/scenario.toml", 1),
        ("", 1),
        ("--no-such-option", 2),
    ] {
        let mut room = [0u8; 5];
        let mut outlet = MemoryOutlet::new(alloc);
        let mut faults = StreamOutlet::new(room.as_mut_slice());
        let line = format!(in alloc; "fdbench check {path}").expect(&rt, NO_MEMORY);
        let mut input = b"".as_slice();
        let status = served(&rt, alloc, &line, &mut input, &mut outlet, &mut faults);
        same(&rt, &(status, faults.failures()), &(*want, 1));
    }
}

/// A flush that fails turns status 0 into 4, with the line of a failed write; another status stays.
#[test]
fn flushes(rt: HostRuntime) {
    let alloc = rt.alloc();
    for (status, want) in [(0, 4u8), (1, 1), (2, 2), (3, 3), (4, 4)] {
        let mut outlet = StreamOutlet::new(Stuck);
        let (mut faults, mut others) = (MemoryOutlet::new(alloc), MemoryOutlet::new(alloc));
        assert!(rt; put_all(&mut outlet, b"ok\n"));
        let code = finish::<BenchFault, _, _>(status, &mut outlet, &mut faults);
        let other = finish::<StudyFault, _, _>(status, &mut outlet, &mut others);
        let (line, its) = if status == 0 {
            (write_failed("fdbench"), write_failed("fdstudy"))
        } else {
            (b"".as_slice(), b"".as_slice())
        };
        same(&rt, &(code, faults.bytes()), &(ExitCode::from(want), line));
        same(&rt, &(other, others.bytes()), &(ExitCode::from(want), its));
    }
    for status in 0..5u8 {
        let mut outlet = StreamOutlet::new(Vec::new(alloc));
        let mut faults = MemoryOutlet::new(alloc);
        let code = finish::<BenchFault, _, _>(status, &mut outlet, &mut faults);
        same(&rt, &code, &ExitCode::from(status));
    }
}
