//! Studies: many runs of one scenario under a grid of settings.
//!
//! This crate says which runs a study has and what each run's scenario is. A [`Grid`] has points, all combinations of
//! the values of its varied axes. The runs of a point are all combinations of the values that are added up, each with
//! each seed. The combinations of the dealt axes' values are dealt to the seeds in turn (`specs/Grid.antt`). The code
//! finds a point or a run by its number, and lists none. A [`Shard`] is one of several consecutive blocks of the
//! points.
//!
//! A study is made of [`Sources`]: the scenario's file, and a network's file where there is one. An [`Assignment`] sets
//! a key of them for all runs. [`read_run`] reads a run's scenario from the files with the run's values in place of
//! theirs (`specs/Placed.antt`) and with the network's file laid over the scenario's table: its links in place of
//! others, and what the run's seed draws as outages (`specs/Laid.antt`). [`scenario_text`] writes that table as a file,
//! and [`read_alone`] reads the files as they stand. Keys, axes, assignments, [`Seeds`] and shards are read from
//! arguments of a command line by their `parse` (`specs/KeyWords.antt`, `specs/AxisWords.antt`, `specs/SetWords.antt`,
//! `specs/Words.antt`).
#![tactic(auto)]

mod assignment;
mod axis;
mod axis_words;
mod combination;
mod error;
mod extent;
mod extent_of;
mod file_key;
mod grid;
mod grid_checks;
mod key;
mod key_words;
mod laid_run;
mod laid_tables;
mod laying;
mod placed;
mod range;
mod range_words;
mod read;
mod run;
mod seeds;
mod set_twice;
mod set_words;
mod setting;
mod setting_words;
mod shard;
mod shard_words;
mod sources;
mod text;
mod words;

pub use assignment::Assignment;
pub use axis::{Axis, Choice};
pub use error::{
    AssignmentError, AxisError, GridError, KeyError, PlaceError, ReadError, SeedsError, ShardError,
    TextError,
};
pub use extent_of::natural_at;
pub use file_key::FileKey;
pub use grid::Grid;
pub use key::Key;
pub use placed::{law_settings, value_at};
pub use read::{read_alone, read_run, run_table, table_alone};
pub use run::Run;
pub use seeds::Seeds;
pub use setting::Setting;
pub use shard::{Shard, law_shards};
pub use sources::Sources;
pub use text::scenario_text;
pub use words::{is_natural_word, natural_in, words_between};
