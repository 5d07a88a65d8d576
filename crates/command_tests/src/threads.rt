//! How many threads share the runs of a study where that isn't said.

use crate::common::{NO_MEMORY, printed, same};
use crate::files::ONE_CRASH;
use std::thread::available_parallelism;

/// One for each processor that the program may use, at most 64. `check` tells how many there are.
#[test]
fn one_for_each_processor(rt: HostRuntime) {
    let alloc = rt.alloc();
    let threads = available_parallelism(&rt).expect(&rt, "no count");
    let threads = threads.get().min(64);
    let wanted = format!(in alloc;
        "ok: 1 points of 1 runs each, about 22 entries in 1 s by {threads} threads\n"
    );
    let came = printed(&rt, alloc, "fdstudy check - --seeds 1", ONE_CRASH);
    same(&rt, &came, &wanted.expect(&rt, NO_MEMORY));
}
