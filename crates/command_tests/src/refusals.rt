//! Files that are too long, and inputs that can't be read.

use crate::common::{NO_MEMORY, same, served};
use crate::files::ONE_CRASH;
use qos_report::MemoryOutlet;
use std::alloc::Global;
use std::io::{self, ErrorKind, Read};
use std::marker::Sync;
use std::process::Abort;
use std::rt::Files;
use std::sync::Wait;
use std::thread::Threads;
use std::time::Clock;

/// What is said of an input that is too long.
const TOO_LONG: &[u8] = b"fdbench: input: too long\n";

/// What is said of an input that can't be read.
const UNREADABLE: &[u8] = b"fdbench: input: unreadable\n";

/// `check` of an input answers this status, and writes this and this of faults.
fn checks<R: Files + Threads + Wait + Sync + Clock + Abort, I: Read>(
    rt: &R,
    alloc: Global,
    input: &mut I,
    wanted: (u8, &[u8], &[u8]),
) {
    let mut outlet = MemoryOutlet::new(alloc);
    let mut faults = MemoryOutlet::new(alloc);
    let status = served(
        rt,
        alloc,
        "fdbench check -",
        input,
        &mut outlet,
        &mut faults,
    );
    same(rt, &(status, outlet.bytes(), faults.bytes()), &wanted);
}

/// A comment that fills the file of one crash up to the most bytes that are read is nothing to the scenario. One byte
/// more is too much.
#[test]
fn long_files(rt: HostRuntime) {
    let alloc = rt.alloc();
    for (length, want) in [
        (8_388_608, (0, b"ok\n".as_slice(), b"".as_slice())),
        (8_388_609, (1, b"".as_slice(), TOO_LONG)),
    ] {
        let file = Vec::from_slice(alloc, ONE_CRASH.as_bytes());
        let mut file = file.expect(&rt, NO_MEMORY);
        file.push(b'#').expect(&rt, NO_MEMORY);
        file.resize(length, b'.').expect(&rt, NO_MEMORY);
        let mut input = file.as_slice();
        checks(&rt, alloc, &mut input, want);
    }
}

/// A reader of so many bytes `#` that fails once after them, with an error of this kind, and then is at its end.
#[derive(Drop)]
struct Failing {
    left: usize,
    kind: ErrorKind,
    has_failed: bool,
}

impl Read for Failing {
    fn read(&mut self, buffer: &mut [u8]) -> io::Result<usize> {
        if self.left == 0 && !self.has_failed && !buffer.is_empty() {
            self.has_failed = true;
            return Err(io::Error::from(self.kind));
        }
        let given = buffer.len().min(self.left);
        buffer[..given].fill(b'#');
        self.left -= given;
        Ok(given)
    }
}

/// A read that fails is the last, whatever its kind: also one that was interrupted, and one for which memory was
/// refused. It may come after a part of a file. Of an input without end no more is read than shows that it is too long.
#[test]
fn failing_reads(rt: HostRuntime) {
    for (left, kind, line) in [
        (0, ErrorKind::Interrupted, UNREADABLE),
        (0, ErrorKind::OutOfMemory, UNREADABLE),
        (0, ErrorKind::UnexpectedEof, UNREADABLE),
        (0, ErrorKind::Other, UNREADABLE),
        (1, ErrorKind::Other, UNREADABLE),
        (8_388_609, ErrorKind::Other, TOO_LONG),
    ] {
        let mut input = Failing {
            left,
            kind,
            has_failed: false,
        };
        let want = (1, b"".as_slice(), line);
        checks(&rt, rt.alloc(), &mut input, want);
        same(&rt, &input.left, &0);
    }
}
