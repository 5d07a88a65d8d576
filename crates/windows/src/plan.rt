//! Plans.
ghost use Rattle.std.specs.Prelude.{◌≡◌, IfOk, OnOk, IfErr};
ghost use Rattle.windows.specs.Plan.{IsPlan, IsPlanFor, plan_of, NoneApplies, IsFirst};

use crate::error::PlanError;
use scenario_record::Scenario;
use std::marker::Model;

/// How many workers can share a window.
pub(crate) const MOST_WORKERS: u64 = 64;

/// How many workers share the processes, and how many ticks a window has.
#[derive(Clone, Copy, Debug, PartialEq, Eq)]
pub struct Plan {
    workers: u16,
    window: u32,
}

impl Model for Plan {
    ghost use Rattle.windows.specs.Plan.{PlanRecord, IsPlan, plan_of};

    ghost Value = { PlanRecord };

    ghost view = { λ p. plan_of p.workers p.window };

    ghost invariant = { λ p. IsPlan (plan_of p.workers p.window) };

    ghost inverse = { λ p. record { workers = p.workers; window = p.window } };
}

impl Plan {
    /// A plan for runs of a scenario: 1 to 64 workers, and windows of one tick to the scenario's lookahead.
    ///
    /// # Errors
    ///
    /// The first of these that applies: `Workers` where the workers aren't 1 to 64, `WindowZero` where a window has no
    /// tick, `WindowTooLong` where it is longer than the lookahead.
    pub fn new(scenario: &Scenario, workers: u64, window: u64) -> Result<Plan, PlanError>
        ensures plan { IfOk result (λ p. p ≡ plan_of workers window) }
        ensures fits { IfOk result (IsPlanFor scenario.now) }
        ensures ok { OnOk result (NoneApplies scenario.now.lookahead workers window) }
        ensures err { IfErr result (IsFirst scenario.now.lookahead workers window) }
    {
        if workers < 1 || workers > MOST_WORKERS {
            return Err(PlanError::Workers);
        }
        if window == 0 {
            return Err(PlanError::WindowZero);
        }
        if window > scenario.lookahead() as u64 {
            return Err(PlanError::WindowTooLong);
        }
        Ok(Plan {
            workers: workers as u16,
            window: window as u32,
        })
    }

    /// How many workers share a window, 1 to 64.
    pub fn workers(&self) -> u16
        ensures value { result ≡ self.now.workers }
        ensures is_plan { IsPlan self.now }
    {
        self.workers
    }

    /// How many ticks a window has, at least 1.
    pub fn window(&self) -> u32
        ensures value { result ≡ self.now.window }
        ensures is_plan { IsPlan self.now }
    {
        self.window
    }
}
