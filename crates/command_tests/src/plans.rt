//! Runs go by the plan that is asked for, and write as their windows close.

use crate::common::{changed, same};
use crate::files::{FIVE, ONE_CRASH, ONE_PROCESS};
use bench_commands::{Order, carry_out};
use process_api::Pid;
use qos_report::{Outlet, PrintChoice};
use std::alloc::Global;
use std::io::{self, ErrorKind};
use std::marker::Sync;
use std::process::Abort;
use std::rt::Files;
use std::sync::Wait;
use std::sync::atomic::{AtomicU16, AtomicU64, Ordering};
use std::thread::{self, Threads};
use windows::Gate;

/// How often a worker that is held looks for the last one before it gives up.
const TURNS: u32 = 2_000_000;

/// A gate that counts its calls, and holds each worker until the last of so many workers has called.
#[derive(Drop)]
struct Roll {
    calls: AtomicU64,
    /// The greatest number of a worker so far.
    greatest: AtomicU16,
    last: u16,
}

impl Gate for Roll {
    fn entered<R: Wait>(&self, _rt: &R, worker: u16, _pid: Pid) {
        self.calls.fetch_add(1, Ordering::SeqCst);
        self.greatest.fetch_max(worker, Ordering::SeqCst);
        for _ in 0..TURNS {
            if self.greatest.load(Ordering::SeqCst) >= self.last {
                return;
            }
            thread::yield_now();
        }
    }
}

/// An outlet that keeps, of each put, how many calls a gate had by then.
#[derive(Drop)]
struct Timed<'a> {
    gate: &'a Roll,
    puts: Vec<u64>,
    failures: u64,
}

impl Outlet for Timed<'_> {
    ghost failed = { λ o. o.failures };

    fn put(&mut self, piece: &[u8]) -> io::Result<usize> {
        match self.puts.push(self.gate.calls.load(Ordering::SeqCst)) {
            Ok(()) => Ok(piece.len()),
            Err(_) => {
                self.failures += 1;
                Err(io::Error::from(ErrorKind::OutOfMemory))
            }
        }
    }

    fn failures(&self) -> u64 {
        self.failures
    }
}

/// An order over a file is carried out. This many workers call the gate, and at each put it has had at least so many
/// calls, and at most so many.
fn goes<R: Files + Threads + Wait + Sync + Abort>(
    rt: &R,
    alloc: Global,
    file: &str,
    order: Order<'_>,
    workers: u16,
    puts: &[(u64, u64)],
) {
    let gate = Roll {
        calls: AtomicU64::new(0),
        greatest: AtomicU16::new(0),
        last: workers,
    };
    let mut outlet = Timed {
        gate: &gate,
        puts: Vec::new(alloc),
        failures: 0,
    };
    let mut input = file.as_bytes();
    let ran = carry_out(rt, alloc, &order, &gate, &mut input, &mut outlet);
    let greatest = gate.greatest.load(Ordering::SeqCst);
    let came = (ran.is_ok(), greatest, outlet.puts.len());
    same(rt, &came, &(true, workers, puts.len()));
    for (calls, (least, most)) in outlet.puts.iter().zip(puts) {
        assert!(rt; least <= calls && calls <= most);
    }
}

/// A run by windows.
fn run(workers: u64, window: u64, print: PrintChoice) -> Order<'static> {
    Order::Run {
        path: "-",
        workers,
        window,
        print,
    }
}

/// Calls of the gate by the first line, and by the rows of each window: all of the windows up to it, and some of the
/// next one.
const BY_ROWS: [(u64, u64); 8] = [
    (0, 0),
    (2, 4),
    (4, 6),
    (6, 8),
    (8, 10),
    (10, 12),
    (12, 14),
    (14, 14),
];

/// The list and `check` tell no gate, and put once. By windows of 2 ticks two processes are taken in each of five
/// windows, by windows of 1 tick in each of seven: the first line goes out before the first, the rows of each after it
/// and before the next one ends, and the report in the end. A comparison runs by windows once.
#[test]
fn as_windows_close(rt: HostRuntime) {
    let alloc = rt.alloc();
    let file = changed(&rt, alloc, ONE_CRASH, "at = 3", "at = 10");
    let (path, both, trace) = ("-", PrintChoice::Both, PrintChoice::Trace);
    let (workers, window) = (2, 2);
    let compare = Order::Compare {
        path,
        workers,
        window,
    };
    for (order, workers, puts) in [
        (Order::Check { path }, 0, [(0, 0)].as_slice()),
        (Order::List { path, print: both }, 0, &[(0, 0)]),
        (run(2, 2, trace), 2, &BY_ROWS[..6]),
        (run(2, 1, trace), 2, &BY_ROWS),
        (
            run(1, 2, both),
            1,
            &[(0, 0), (2, 4), (4, 6), (6, 8), (8, 10), (10, 10), (10, 10)],
        ),
        (run(64, 2, PrintChoice::Report), 2, &[(10, 10)]),
        (compare, 2, &[(10, 10)]),
    ] {
        goes(&rt, alloc, &file, order, workers, puts);
    }
}

/// Of five processes each of at most five workers takes one in the first window, and holds it until all have.
#[test]
fn workers_that_are_asked_for(rt: HostRuntime) {
    let alloc = rt.alloc();
    let file = changed(&rt, alloc, FIVE, "horizon = 200", "horizon = 1");
    for (asked, workers) in [(1, 1), (2, 2), (3, 3), (4, 4), (5, 5), (64, 5)] {
        let order = run(asked, 2, PrintChoice::Trace);
        goes(&rt, alloc, &file, order, workers, &[(0, 0), (5, 5)]);
    }
}

/// Rows go out as they get long, though their window has more: the 4,032 letters that are due in the second window have
/// more than 65,536 bytes of rows.
#[test]
fn long_rows(rt: HostRuntime) {
    let alloc = rt.alloc();
    let (one, many) = ("processes = 1\n", "processes = 64\n");
    let many = changed(&rt, alloc, ONE_PROCESS, one, many);
    let file = changed(&rt, alloc, &many, "horizon = 1\n", "horizon = 2\n");
    let order = run(2, 1, PrintChoice::Trace);
    goes(
        &rt,
        alloc,
        &file,
        order,
        2,
        &[(0, 0), (64, 128), (128, 128), (128, 128)],
    );
}
