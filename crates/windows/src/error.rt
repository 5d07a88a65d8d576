//! Why a plan is refused.

use thiserror::Error;

/// Why a plan is refused, in the order in which the rules are tried: of several reasons the first is answered.
#[derive(Clone, Copy, Debug, PartialEq, Eq, Error)]
pub enum PlanError {
    /// There are no workers, or more than 64.
    #[error("the number of workers isn't 1 to 64")]
    Workers,
    /// The window has no tick.
    #[error("the window is empty")]
    WindowZero,
    /// The window is longer than the scenario's lookahead.
    #[error("the window is longer than the lookahead")]
    WindowTooLong,
}
