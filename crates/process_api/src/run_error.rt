//! The reasons why a run gave no trace.
ghost use Rattle.std.specs.Prelude.{◌≡◌};

use std::alloc::{AllocError, AllocFailed};
use thiserror::Error;

/// Why a run gave no trace.
#[derive(Clone, Copy, Debug, PartialEq, Eq, Error)]
pub enum RunError {
    /// The whole trace has more entries than the scenario's limit.
    #[error("the trace is longer than the limit")]
    Limit,
    /// Memory was refused.
    #[error("memory was refused")]
    Memory,
    /// The start of a thread was refused.
    #[error("a thread was refused")]
    Spawn,
    /// The output couldn't be written.
    #[error("writing failed")]
    Write,
}

impl From<AllocError> for RunError {
    ghost use Rattle.process_api.specs.declared.run_error.RunError.TheVariants.{Memory};

    ghost from_gives = { λ _ e. e ≡ Memory };

    fn from(_: AllocError) -> RunError {
        RunError::Memory
    }
}

impl<T: Drop> From<AllocFailed<T>> for RunError {
    ghost use Rattle.process_api.specs.declared.run_error.RunError.TheVariants.{Memory};

    ghost from_gives = { λ _ e. e ≡ Memory };

    fn from(_failed: AllocFailed<T>) -> RunError {
        RunError::Memory
    }
}
