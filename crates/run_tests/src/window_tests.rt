//! Plans that are made and refused, the law at a run in which two workers take turns, windows whose berths are called
//! in a given order, and workers that are watched.
mod both_ways;
mod calls;
mod odd;
mod orders;
mod plans;
mod refused;
mod rows;
mod sinks;
mod starts;
mod steals;
mod told;
mod workers;

use crate::comparisons::same;
use process_api::Entry;
use std::process::Abort;

/// Two processes and a lookahead of 2 ticks; the second process crashes at tick 3.
const ONE_CRASH: &str = "version = 1
processes = 2
horizon = 10
lookahead = 2
seed = 1
algorithm = \"none\"
detector = { period = 4, check = 3, timeout = 5, grow = 1 }
link = { min = 2, max = 2 }
crash = [{ process = 2, at = 3 }]
";

/// Three processes that agree by rotating coordinators, with a quiet detector and a lookahead of 2 ticks.
const COORDINATORS: &str = "version = 1
processes = 3
horizon = 20
lookahead = 2
seed = 1
algorithm = \"es\"
proposals = [10, 20, 30]
detector = { period = 100, check = 100, timeout = 100, grow = 1 }
link = { min = 2, max = 2 }
";

/// Six processes that do nothing but start.
const SIX: &str = "version = 1
processes = 6
horizon = 2
lookahead = 2
seed = 1
algorithm = \"none\"
detector = { period = 100, check = 100, timeout = 100, grow = 1 }
link = { min = 2, max = 2 }
";

/// Whether two entries are the same.
fn is_same(a: &Entry, b: &Entry) -> bool {
    a.key == b.key
        && a.kind == b.kind
        && a.sent == b.sent
        && a.lost == b.lost
        && a.notes.as_slice() == b.notes.as_slice()
}

/// Two lists have the same entries, in the same order.
fn same_entries<R: Abort>(rt: &R, came: &[Entry], wanted: &[Entry]) {
    same(rt, &came.len(), &wanted.len());
    for (came, wanted) in came.iter().zip(wanted) {
        assert!(rt; is_same(came, wanted));
    }
}
