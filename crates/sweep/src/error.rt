//! Why a sweep ends early, and why there is no layout.
ghost use Rattle.std.specs.Prelude.{◌≡◌};

use std::alloc::AllocError;
use study::ReadError;
use thiserror::Error;

/// Why a sweep ends early.
#[derive(Debug, Drop, Error)]
pub enum SweepError {
    /// The scenario of a run is refused.
    #[error("a run's scenario is refused")]
    Refused {
        /// The run's point, from 0.
        point: u64,
        /// The run of the point, from 0.
        run: u64,
        /// Why it is refused, which is never because memory was refused.
        reason: ReadError,
    },
    /// A group of pairs names a process that a run doesn't have.
    #[error("a run has fewer processes than a group of pairs names")]
    NoSuchProcess {
        /// The run's point, from 0.
        point: u64,
        /// The run of the point, from 0.
        run: u64,
        /// The place of the first such group among all, from 0.
        group: usize,
        /// How many processes the run has.
        processes: u16,
    },
    /// Memory was refused.
    #[error("out of memory")]
    Memory,
    /// A put failed.
    #[error("writing failed")]
    Write,
}

impl From<AllocError> for SweepError {
    ghost use Rattle.sweep.specs.declared.error.SweepError.TheVariants.{Memory};

    ghost from_gives = { λ _ e. e ≡ Memory };

    fn from(_: AllocError) -> SweepError {
        SweepError::Memory
    }
}

/// Why a word says no group of pairs, in the order in which the reasons are looked for in each part of it. `Memory` may
/// come at any point.
#[derive(Clone, Copy, Debug, PartialEq, Eq, Error)]
pub enum GroupError {
    /// A part isn't `OBSERVERS:SUBJECTS`, each of these `A..=B` or `A`, with natural numbers.
    #[error("no group of pairs")]
    NoGroup,
    /// A process is below 1 or above 256.
    #[error("a process is below 1 or above 256")]
    NoProcess,
    /// The last process of a side is below the first.
    #[error("a range of processes is empty")]
    EmptyRange,
    /// Memory was refused.
    #[error("out of memory")]
    Memory,
}

impl From<AllocError> for GroupError {
    ghost use Rattle.sweep.specs.declared.error.GroupError.TheVariants.{Memory};

    ghost from_gives = { λ _ e. e ≡ Memory };

    fn from(_: AllocError) -> GroupError {
        GroupError::Memory
    }
}

/// Why there is no layout.
#[derive(Debug, Drop, Error)]
pub enum LayoutError {
    /// A word is no column's name.
    #[error("no column {name}; the nearest is {nearest}")]
    Unknown {
        /// The word, the first that is none.
        name: String,
        /// One of the nearest names.
        nearest: String,
    },
    /// Memory was refused.
    #[error("out of memory")]
    Memory,
}

impl From<AllocError> for LayoutError {
    ghost use Rattle.sweep.specs.declared.error.LayoutError.TheVariants.{Memory};

    ghost from_gives = { λ _ e. e ≡ Memory };

    fn from(_: AllocError) -> LayoutError {
        LayoutError::Memory
    }
}
