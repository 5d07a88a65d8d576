//! Why a scenario's file is refused.
ghost use Rattle.std.specs.Prelude.{◌≡◌, ◌++◌, Some, codes};
ghost use Rattle.scenario.specs.Refusals.{name_of};

use process_api::Pid;
use std::alloc::{AllocError, AllocFailed};
use std::fmt;
use thiserror::Error;

/// Why a scenario's file is refused, in the order in which the rules are tried: of several faults the first is
/// answered (`specs/Refusals.antt` has the list). `Memory` may come at any point.
#[derive(Debug, PartialEq, Eq, Drop, Error)]
pub enum ScenarioError {
    /// The bytes are no UTF-8, or no TOML.
    NotToml,
    /// A table has a key that isn't one of its keys.
    UnknownKey,
    /// A key that must be there is missing.
    MissingKey,
    /// A key has a value of another kind than its own.
    WrongKind,
    /// `version` isn't 1 or 2.
    Version,
    /// `processes` isn't 1 to 64, in a file of version 2 1 to 256.
    Processes,
    /// `horizon` isn't 1 to 10,000,000.
    Horizon,
    /// `lookahead` isn't 1 to 1,000,000.
    Lookahead,
    /// `limit` isn't 1 to 100,000,000.
    Limit,
    /// `seed` isn't 0 to 9,223,372,036,854,775,807.
    Seed,
    /// `algorithm` isn't `none`, `s` or `es`.
    AlgorithmName,
    /// There are proposals without an algorithm, or an algorithm has other proposals than one of each process, each
    /// 0 to 4,294,967,295.
    Proposals,
    /// The detector's `kind` isn't `timeout` or `freshness`, one of its numbers isn't 1 to 1,000,000, or its `watch`
    /// isn't `all` or `next`.
    DetectorNumbers,
    /// The period of the shares isn't 1 to 1,000,000.
    Share,
    /// A link has a `min` or a `max` that isn't 1 to 1,000,000 ticks, a `min` above its `max`, or a `loss` that isn't
    /// 0 to 1,000 thousandths; or a table of `links` has a `from` or a `to` that isn't 1 to the number of processes, or
    /// the same process as both, or is of the pair of another one.
    LinkNumbers,
    /// A letter between two different processes may take fewer ticks than the lookahead.
    BelowLookahead {
        /// The sender of the least pair of which this is so, by sender and then by receiver.
        from: Pid,
        /// The receiver of that pair.
        to: Pid,
    },
    /// A table of `crash` has a `process` that isn't 1 to the number of processes, or is of the process of another one,
    /// or its `at` isn't 0 to 10,000,000.
    CrashLine,
    /// A table of `outage` has a `from` or a `to` that isn't 1 to the number of processes, or the same process as both,
    /// or a `begin` or an `until` that isn't 0 to 10,000,000, or a `begin` that isn't below its `until`.
    OutageLine,
    /// Memory was refused.
    Memory,
}

impl fmt::Display for ScenarioError {
    ghost output = { λ e. Some (codes "no scenario was read: " ++ name_of e) };

    /// Writes that no scenario was read, and the refusal's name.
    fn fmt<W: fmt::Write>(&self, f: &mut fmt::Formatter<W>) -> fmt::Result {
        write!(f, "no scenario was read: {}", self.name())
    }
}

impl From<AllocError> for ScenarioError {
    ghost use Rattle.scenario.specs.declared.error.ScenarioError.TheVariants.{Memory};

    ghost from_gives = { λ _ e. e ≡ Memory };

    fn from(_: AllocError) -> ScenarioError {
        ScenarioError::Memory
    }
}

impl<T: Drop> From<AllocFailed<T>> for ScenarioError {
    ghost use Rattle.scenario.specs.declared.error.ScenarioError.TheVariants.{Memory};

    ghost from_gives = { λ _ e. e ≡ Memory };

    fn from(_failed: AllocFailed<T>) -> ScenarioError {
        ScenarioError::Memory
    }
}

impl ScenarioError {
    /// The refusal's name, which is the variant's: a line of fault calls it so. Of `BelowLookahead` the name alone,
    /// without the pair.
    pub fn name(&self) -> &'static str
        ensures { result.now ≡ name_of self.now }
    {
        match self {
            ScenarioError::NotToml => "NotToml",
            ScenarioError::UnknownKey => "UnknownKey",
            ScenarioError::MissingKey => "MissingKey",
            ScenarioError::WrongKind => "WrongKind",
            ScenarioError::Version => "Version",
            ScenarioError::Processes => "Processes",
            ScenarioError::Horizon => "Horizon",
            ScenarioError::Lookahead => "Lookahead",
            ScenarioError::Limit => "Limit",
            ScenarioError::Seed => "Seed",
            ScenarioError::AlgorithmName => "AlgorithmName",
            ScenarioError::Proposals => "Proposals",
            ScenarioError::DetectorNumbers => "DetectorNumbers",
            ScenarioError::Share => "Share",
            ScenarioError::LinkNumbers => "LinkNumbers",
            ScenarioError::BelowLookahead { .. } => "BelowLookahead",
            ScenarioError::CrashLine => "CrashLine",
            ScenarioError::OutageLine => "OutageLine",
            ScenarioError::Memory => "Memory",
        }
    }
}
