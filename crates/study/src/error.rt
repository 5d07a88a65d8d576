//! Why a study is refused.

use network::{Above, NetworkError};
use scenario::ScenarioError;
use std::alloc::AllocError;
use thiserror::Error;

/// Why a grid is refused, in the order in which the rules are tried: of several reasons the first is answered. `Memory`
/// may come at any point.
#[derive(Debug, Drop, Error)]
pub enum GridError {
    /// The last seed is below the first.
    #[error("there is no seed")]
    NoSeed,
    /// A seed is above 9,223,372,036,854,775,807.
    #[error("a seed is too high")]
    SeedTooHigh,
    /// A key is set twice: the text of the first key that meets one before it, the varied keys being first, then those
    /// whose values are added up, then the dealt ones.
    #[error("a key is there twice")]
    KeyTwice(String),
    /// There are more than 1,000,000 points.
    #[error("there are too many points")]
    TooManyPoints {
        /// How many there are; 18,446,744,073,709,551,615 stands for more than that too.
        points: u64,
    },
    /// The dealt combinations can't be dealt to equally many seeds.
    #[error("the seeds can't be dealt evenly")]
    Uneven {
        /// How many seeds there are.
        seeds: u64,
        /// How many dealt combinations there are; 18,446,744,073,709,551,615 stands for more than that too.
        dealt: u64,
    },
    /// A point has more than 1,000,000,000,000 runs.
    #[error("there are too many runs")]
    TooManyRuns {
        /// How many it has; 18,446,744,073,709,551,615 stands for more than that too.
        runs: u64,
    },
    /// Memory was refused.
    #[error("out of memory")]
    Memory(#[from(alloc)] AllocError),
}

/// Why a study's files can't have a value at a key, or stand for no table of a run. Reasons against a network's file
/// are looked for in the order in which they stand here.
#[derive(Debug, Drop, Error)]
pub enum PlaceError {
    /// The key is one of the network's file, and there is none.
    #[error("there is no network file")]
    NoNetwork,
    /// The key's path goes through something that is no table, or no array of tables.
    #[error("the key's path goes through what is no table")]
    NotATable,
    /// The key's path goes through a table that its array doesn't have, or through every table of an array without any.
    #[error("the key's path goes through a table that isn't there")]
    NoElement,
    /// The network's file is refused. The error isn't `NetworkError::Memory`.
    #[error("the network file is refused")]
    Network(NetworkError),
    /// The network's file names a process that the run doesn't have.
    #[error("the network file names a process that the run does not have")]
    ProcessAbove(Above),
    /// The network's file draws outages, and the scenario's version isn't 2.
    #[error("outages are drawn over a file whose version isn't 2")]
    OlderFile,
    /// In the run more than 100,000 outages are drawn.
    #[error("too many outages are drawn")]
    TooManyOutages,
    /// Memory was refused.
    #[error("out of memory")]
    Memory(#[from(alloc)] AllocError),
}

/// Why a run has no scenario.
#[derive(Debug, Drop, Error)]
pub enum ReadError {
    /// A key can't be set.
    #[error("a key can't be set")]
    Place(PlaceError),
    /// The file with the run's settings is refused.
    #[error("the scenario is refused")]
    Scenario(ScenarioError),
}

/// Why a run has no text.
#[derive(Debug, Drop, Error)]
pub enum TextError {
    /// A key can't be set.
    #[error("a key can't be set")]
    Place(PlaceError),
    /// The file has a date that TOML can't say.
    #[error("a date can't be written")]
    Date,
}

/// Why a word says no key.
#[derive(Debug, Drop, Error)]
pub enum KeyError {
    /// The word is `seed`: a study's seeds are said by themselves.
    #[error("seed is no key of a study")]
    Seed,
    /// The word is no key: names of letters, digits, `_` and `-`, as `horizon`, `detector.timeout`, `crash[1].at`,
    /// `crash[*].at` or `network.bursts[1].gap`.
    #[error("no key")]
    NoKey,
    /// Memory was refused.
    #[error("out of memory")]
    Memory(#[from(alloc)] AllocError),
}

/// Why words say no axis, in the order in which the reasons are looked for: first in the whole, then in each key, from
/// the first to the last, and then in each value. A value of tied keys is looked at as a whole, then in each part, and
/// then whether there is room for it. `Memory` may come at any point.
#[derive(Debug, Drop, Error)]
pub enum AxisError {
    /// There is no `=`.
    #[error("there is no =")]
    NoEquals,
    /// The text before the first `=`, or a part of it between commas, is no key.
    #[error("no key stands before the =")]
    Key(KeyError),
    /// A value of tied keys hasn't one part for each of them.
    #[error("a value hasn't one part for each key")]
    PartsPerKey,
    /// There is nothing where a value, or a part of one, belongs.
    #[error("a value is missing")]
    NoValue,
    /// An integer, or an end or the step of a range, is below -9,223,372,036,854,775,808 or above
    /// 9,223,372,036,854,775,807.
    #[error("a number is too large")]
    NumberTooLarge,
    /// A part of a value of tied keys is a range, whatever its numbers.
    #[error("a range stands in a value of tied keys")]
    TiedRange,
    /// A range's step is below 1.
    #[error("a range's step is below 1")]
    StepTooLow,
    /// A range begins above its end.
    #[error("a range is empty")]
    EmptyRange,
    /// With this value there are more than 1,000,000.
    #[error("there are too many values")]
    TooManyValues,
    /// Memory was refused.
    #[error("out of memory")]
    Memory(#[from(alloc)] AllocError),
}

/// Why words set no key, in the order in which the reasons are looked for. `Memory` may come at any point.
#[derive(Debug, Drop, Error)]
pub enum AssignmentError {
    /// There is no `=`.
    #[error("there is no =")]
    NoEquals,
    /// The text before the first `=` is no key.
    #[error("no key stands before the =")]
    Key(KeyError),
    /// Nothing stands after it.
    #[error("a value is missing")]
    NoValue,
    /// Memory was refused.
    #[error("out of memory")]
    Memory(#[from(alloc)] AllocError),
}

/// Why a word says no seeds, in the order in which the reasons are looked for.
#[derive(Clone, Copy, Debug, PartialEq, Eq, Error)]
pub enum SeedsError {
    /// The word is neither `A..=B` nor `A`, with natural numbers.
    #[error("no seeds")]
    NoSeeds,
    /// A seed is above 9,223,372,036,854,775,807.
    #[error("a seed is too high")]
    SeedTooHigh,
    /// The last seed is below the first.
    #[error("there is no seed")]
    EmptyRange,
}

/// Why a word says no shard, in the order in which the reasons are looked for.
#[derive(Clone, Copy, Debug, PartialEq, Eq, Error)]
pub enum ShardError {
    /// The word isn't `K/N`, with natural numbers.
    #[error("no shard")]
    NoShard,
    /// K is 0 or above N, or N is above 4,294,967,295.
    #[error("there is no such shard")]
    OutOfRange,
}
