//! Sweeps whose outlet fails.
use super::studies::{Study, seven_points, swept, two_points};
use crate::comparisons::same;
use reporting::{FuseOutlet, Outlet};
use std::alloc::Global;
use std::marker::Sync;
use std::process::Abort;
use std::thread::Threads;
use std::time::Clock;
use study::Shard;
use sweep::{SweepError, Unwatched, sweep};

/// Whether a sweep ends well over an outlet that takes at most `most` bytes at a put, `times` times. If not, the outlet
/// holds a front of the whole, and nothing was tried again.
fn ends_well<R: Threads + Sync + Clock + Abort>(
    rt: &R,
    alloc: Global,
    study: &Study,
    (most, times): (usize, u64),
    whole: &[u8],
) -> bool {
    let mut outlet = FuseOutlet::new(alloc, most, times);
    let all = study.part(Shard::whole(), 2);
    let answer = sweep(rt, alloc, &all, &mut outlet, &mut Unwatched);
    match answer {
        Ok(()) => {
            same(rt, &outlet.failures(), &0);
            assert!(rt; outlet.bytes() == whole);
            true
        }
        Err(error) => {
            assert!(rt; matches!(error, SweepError::Write));
            same(rt, &outlet.failures(), &1);
            assert!(rt; whole.starts_with(outlet.bytes()));
            false
        }
    }
}

/// A sweep fails at each of its puts, and ends well where none fails. The header is one put, and so are the rows of
/// each point; or each byte is one.
#[test]
fn each_put_fails(rt: HostRuntime) {
    let alloc = rt.alloc();
    let (seven, two) = (seven_points(&rt, alloc), two_points(&rt, alloc));
    for &(study, most, puts) in &[(&seven, usize::MAX, Some(8)), (&two, 1, None)] {
        let whole = swept(&rt, alloc, study, 1);
        let puts = puts.unwrap_or(whole.bytes().len() as u64);
        for before in 0..puts {
            let ended = ends_well(&rt, alloc, study, (most, before), whole.bytes());
            assert!(rt; !ended, "{before}");
        }
        assert!(rt; ends_well(&rt, alloc, study, (most, puts), whole.bytes()));
    }
}
