//! Plans that are made, and plans that are refused.
use super::ONE_CRASH;
use crate::common::{NO_RUN, scenario_of};
use crate::comparisons::same;
use windows::{Plan, PlanError};

/// Numbers of workers and ticks of a window, and how they are refused at a lookahead of 2 ticks, or not.
const PLANS: [(u64, u64, Option<PlanError>); 12] = [
    (0, 0, Some(PlanError::Workers)),
    (65, 0, Some(PlanError::Workers)),
    (65, 3, Some(PlanError::Workers)),
    (18_446_744_073_709_551_615, 1, Some(PlanError::Workers)),
    (1, 0, Some(PlanError::WindowZero)),
    (64, 0, Some(PlanError::WindowZero)),
    (2, 3, Some(PlanError::WindowTooLong)),
    (
        1,
        18_446_744_073_709_551_615,
        Some(PlanError::WindowTooLong),
    ),
    (1, 1, None),
    (2, 2, None),
    (3, 1, None),
    (64, 2, None),
];

/// A plan that is made has the numbers that it was made of.
#[test]
fn made_or_refused(rt: HostRuntime) {
    let scenario = scenario_of(&rt, rt.alloc(), ONE_CRASH);
    let two = Plan::new(&scenario, 2, 2).expect(&rt, NO_RUN);
    for (workers, window, refusal) in PLANS {
        let plan = Plan::new(&scenario, workers, window);
        if let Some(refusal) = refusal {
            let came = plan.expect_err(&rt, "a plan was made");
            same(&rt, &(workers, window, came), &(workers, window, refusal));
        } else {
            let plan = plan.expect(&rt, NO_RUN);
            let came = (u64::from(plan.workers()), u64::from(plan.window()));
            same(
                &rt,
                &(came, plan == two),
                &((workers, window), came == (2, 2)),
            );
        }
    }
}
