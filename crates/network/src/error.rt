//! Why no outages are drawn.

use std::alloc::AllocError;
use thiserror::Error;

/// Why no outages are drawn.
#[derive(Debug, Drop, Error)]
pub enum DrawError {
    /// There would be more than 100,000.
    #[error("more than 100000 outages are drawn")]
    TooManyOutages,
    /// Memory was refused.
    #[error("out of memory")]
    Memory,
}

impl From<AllocError> for DrawError {
    ghost use Rattle.std.specs.Prelude.{◌≡◌};
    ghost use Rattle.network.specs.declared.error.DrawError.TheVariants.{Memory};

    ghost from_gives = { λ _ e. e ≡ Memory };

    fn from(_: AllocError) -> DrawError {
        DrawError::Memory
    }
}
