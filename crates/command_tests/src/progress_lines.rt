//! The line of progress, by a clock that the test sets, on a terminal in memory.

use crate::common::{same, text_of};
use std::cell::Cell;
use std::io::{self, Write};
use std::time::{Clock, Duration};
use study_commands::progress_line::ProgressLine;
use sweep::{Pass, Standing, Watcher};

/// A clock that shows the milliseconds which the test sets, and where none are set fails.
#[derive(Drop)]
struct Hand(Cell<Option<u64>>);

impl Clock for Hand {
    fn monotonic(&self) -> io::Result<Duration> {
        match self.0.get() {
            Some(millis) => Ok(Duration::from_millis(millis)),
            None => Err(io::Error::from(io::ErrorKind::Other)),
        }
    }

    fn since_1970(&self) -> io::Result<Duration> {
        self.monotonic()
    }
}

/// A terminal that can't be written to.
#[derive(Drop)]
struct Broken;

impl Write for Broken {
    fn write(&mut self, _piece: &[u8]) -> io::Result<usize> {
        Err(io::Error::from(io::ErrorKind::Other))
    }

    fn flush(&mut self) -> io::Result<()> {
        Ok(())
    }
}

/// So many of the runs of four points with 100 runs each are in.
fn standing(done: u64) -> Standing {
    Standing {
        pass: Pass::Running,
        points: 4,
        runs: 100,
        done,
    }
}

/// What the clock shows, and how many runs are in.
const TIMES: [(Option<u64>, u64); 8] = [
    (Some(5_000), 0),
    (Some(5_100), 64),
    (Some(15_000), 100),
    (Some(15_199), 110),
    (None, 200),
    (Some(165_000), 250),
    (Some(36_005_000), 300),
    (Some(36_105_000), 399),
];

/// Four points with 100 runs each. After 10 seconds a quarter of the runs is in, so 30 seconds are left; after 160
/// seconds 250 runs are, so 96 seconds; after 10 hours 300, so 12,000 seconds; 100 seconds later one is left, so 90.
/// What comes less than 200 milliseconds after a line isn't drawn. A shorter line is filled up with blanks.
#[test]
fn lines(rt: HostRuntime) {
    let alloc = rt.alloc();
    let clock = Hand(Cell::new(None));
    let mut screen = Vec::new(alloc);
    let mut line = ProgressLine::new(&clock, alloc, &mut screen, true, false);
    for (millis, done) in &TIMES {
        clock.0.set(*millis);
        line.make_way();
        line.hear(standing(*done));
    }
    line.hide();
    line.hide();
    drop(line);
    let want = "\r0 of 4 points\
        \r1 of 4 points, 30 s left\
        \r2 of 4 points, 1 min left\
        \r3 of 4 points, 3 h 20 min left\
        \r3 of 4 points, 1 min left     \
        \r                              \r";
    same(&rt, &text_of(&rt, &screen), &want);
}

/// What the clock shows, and how many runs are read.
const READ: [(u64, u64); 2] = [(1_000, 0), (11_000, 100)];

/// Before its runs a sweep reads their scenarios: of 400 in 10 seconds 100, so 30 seconds are left. The time of the
/// runs begins anew.
#[test]
fn reading(rt: HostRuntime) {
    let alloc = rt.alloc();
    let clock = Hand(Cell::new(Some(1_000)));
    let mut screen = Vec::new(alloc);
    let mut line = ProgressLine::new(&clock, alloc, &mut screen, true, false);
    for (millis, done) in &READ {
        clock.0.set(Some(*millis));
        line.hear(Standing {
            pass: Pass::Reading,
            points: 4,
            runs: 100,
            done: *done,
        });
    }
    clock.0.set(Some(50_000));
    line.hear(standing(0));
    clock.0.set(Some(60_000));
    line.hear(standing(200));
    drop(line);
    let want = "\r0 of 400 runs read\
        \r100 of 400 runs read, 30 s left\
        \r0 of 4 points                  \
        \r2 of 4 points, 10 s left       ";
    same(&rt, &text_of(&rt, &screen), &want);
}

/// Where rows go to a terminal too, the line makes way for them, and is put back at once.
#[test]
fn makes_way(rt: HostRuntime) {
    let alloc = rt.alloc();
    let clock = Hand(Cell::new(Some(0)));
    let mut screen = Vec::new(alloc);
    let mut line = ProgressLine::new(&clock, alloc, &mut screen, true, true);
    line.hear(standing(0));
    line.make_way();
    clock.0.set(Some(100));
    line.hear(standing(100));
    clock.0.set(Some(200));
    line.hear(standing(200));
    drop(line);
    let want = "\r0 of 4 points\r             \r\r1 of 4 points, 0 s left";
    same(&rt, &text_of(&rt, &screen), &want);
}

/// With no terminal nothing is shown, and one that can't be written to stops nobody.
#[test]
fn no_line(rt: HostRuntime) {
    let alloc = rt.alloc();
    let clock = Hand(Cell::new(Some(0)));
    let mut file = Vec::new(alloc);
    let mut none = ProgressLine::new(&clock, alloc, &mut file, false, true);
    none.hear(standing(0));
    none.make_way();
    none.hide();
    drop(none);
    assert!(rt; file.is_empty());
    let mut broken = ProgressLine::new(&clock, alloc, Broken, true, true);
    broken.hear(standing(0));
    broken.hide();
}
