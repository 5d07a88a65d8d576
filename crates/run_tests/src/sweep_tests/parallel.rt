//! Calls that threads share out.
use crate::comparisons::{NO_MEMORY, same};
use std::sync::atomic::{AtomicU64, Ordering};
use std::thread;
use sweep::in_parallel;

/// How often a call looks for the others before it gives up.
const TURNS: u32 = 100_000_000;

/// Waits until so many calls have begun. Answers whether they have.
fn have_begun(begun: &AtomicU64, count: u64) -> bool {
    for _ in 0..TURNS {
        if begun.load(Ordering::SeqCst) >= count {
            return true;
        }
        thread::yield_now();
    }
    false
}

/// Ten numbers from 5, each by 7: by any number of threads the remainders stand in the numbers' order.
#[test]
fn ten_remainders(rt: HostRuntime) {
    let alloc = rt.alloc();
    let remainder = |number: u64| number % 7;
    for threads in [0, 1, 2, 3, 4, 10, 255] {
        let remainders = in_parallel(&rt, alloc, 5, 10, threads, &remainder);
        let remainders = remainders.expect(&rt, NO_MEMORY);
        let wanted = [5, 6, 0, 1, 2, 3, 4, 5, 6, 0];
        same(&rt, &remainders.as_slice(), &wanted.as_slice());
        let none = in_parallel(&rt, alloc, 5, 0, threads, &remainder);
        same(&rt, &none.expect(&rt, NO_MEMORY).len(), &0);
    }
}

/// As many calls as threads, of which none ends before all have begun: so each thread is at work on its own.
#[test]
fn threads_overlap(rt: HostRuntime) {
    let alloc = rt.alloc();
    for threads in [2u8, 3, 4] {
        let count = u64::from(threads);
        let begun = AtomicU64::new(0);
        let met = in_parallel(
            &rt,
            alloc,
            0,
            count,
            threads,
            &|_number| {
                begun.fetch_add(1, Ordering::SeqCst);
                have_begun(&begun, count)
            },
        );
        let met = met.expect(&rt, NO_MEMORY);
        same(&rt, &begun.load(Ordering::SeqCst), &count);
        assert!(rt; met.iter().all(|is_met| *is_met), "{threads}");
    }
}
