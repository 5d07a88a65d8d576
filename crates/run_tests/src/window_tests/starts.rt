//! The ticks at which windows open: none opens where nothing is pending.

use super::both_ways::stage_after;
use super::{COORDINATORS, ONE_CRASH};
use crate::common::{NO_RUN, scenario_of};
use crate::comparisons::same;
use windows::Plan;

/// Scenarios, the ticks of a window, and the ticks at which the windows start, of which the last is the horizon:
/// windows of one tick for two processes that watch each other, and of two ticks for three that agree by rotating
/// coordinators.
const STARTS: [(&str, u64, &[u32]); 2] = [
    (ONE_CRASH, 1, &[0, 2, 3, 4, 6, 8, 9, 10]),
    (COORDINATORS, 2, &[0, 2, 4, 6, 8, 10, 20]),
];

#[test]
fn starts_of_windows(rt: HostRuntime) {
    for (text, window, starts) in STARTS {
        let scenario = scenario_of(&rt, rt.alloc(), text);
        let plan = Plan::new(&scenario, 2, window).expect(&rt, NO_RUN);
        let mut before: usize = 0;
        for start in starts {
            let stage = stage_after(&rt, rt.alloc(), &scenario, &plan, before);
            before = before.saturating_add(1);
            let came = (stage.start(), stage.finished());
            same(&rt, &came, &(*start, before == starts.len()));
        }
    }
}
