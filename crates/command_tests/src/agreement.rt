//! Agreement over links that lose and delay letters: where processes suspect one another all the time, with a detector
//! that waits for one tick alone, and by freshness points.

use crate::common::{changed, same, seeded};
use crate::files::FIVE;
use crate::judged::outcomes_of;
use judges::{Answer, Outcome};
use std::process::Abort;

/// Those that decide have one value, one of 1 to 5, and nobody ends with no value. It answers how many decide.
fn agree<R: Abort>(rt: &R, outcomes: &[Outcome], seed: u32) -> u32 {
    let mut decided = 0u32;
    let mut agreed: Option<u32> = None;
    for outcome in outcomes {
        let Answer::Value(value) = outcome.value else {
            assert!(rt; outcome.value != Answer::NoValue, "{seed}");
            continue;
        };
        let is_agreed = value == agreed.unwrap_or(value);
        assert!(rt; is_agreed && 1 <= value && value < 6, "{seed}");
        agreed = Some(value);
        decided = decided.saturating_add(1);
    }
    decided
}

/// The five processes suspect after one tick, or they have freshness points in the place of time-outs. In each of a
/// hundred runs, in which they propose 1 to 5, those that decide have one value, one of these, and in all some decide.
#[test]
fn hundred_seeds(rt: HostRuntime) {
    let alloc = rt.alloc();
    let (old, new) = ("check = 3, timeout = 12", "check = 1, timeout = 1");
    let hasty = changed(&rt, alloc, FIVE, old, new);
    let second = changed(&rt, alloc, FIVE, "version = 1\n", "version = 2\n");
    let old = "period = 5, check = 3, timeout = 12, grow = 2";
    let new = "kind = \"freshness\", eta = 5, delta = 3";
    let fresh = changed(&rt, alloc, &second, old, new);
    for file in [hasty.as_str(), fresh.as_str()] {
        let mut decided = 0u32;
        for seed in 1..101u32 {
            let outcomes = outcomes_of(&rt, alloc, &seeded(&rt, alloc, file, seed));
            same(&rt, &outcomes.len(), &5);
            decided = decided.saturating_add(agree(&rt, &outcomes, seed));
        }
        assert!(rt; decided > 0);
    }
}
