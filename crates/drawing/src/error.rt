//! Why nothing is drawn.

use std::alloc::AllocError;
use thiserror::Error;

/// Why nothing is drawn. Of several reasons the first in this order is answered; `Memory` may come at any point.
#[derive(Debug, Drop, Error)]
pub enum DrawError {
    /// There are more than 16 processes.
    #[error("there are more than 16 processes")]
    TooManyProcesses,
    /// The first tick asked for isn't below the end, or the end is above the horizon.
    #[error("these ticks aren't those of the run")]
    Ticks,
    /// More than 2,000 letters are sent at these ticks.
    #[error("there are more than 2,000 letters to draw")]
    TooManyLetters,
    /// Memory was refused.
    #[error("out of memory")]
    Memory(#[from(alloc)] AllocError),
}
