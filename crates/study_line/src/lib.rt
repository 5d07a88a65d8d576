//! The command line of `fdstudy`: the arguments and the order that they ask for.
//!
//! [`read_words`] reads the arguments, of which the first is the program's name, as a simple command: `check`,
//! `letters`, `draw`, `show` or `sweep`, each with its own arguments and options. It answers the [`Order`] that `clap`
//! finds in them, or the text about arguments that make none. The crate stands apart from the program, so that nothing
//! else uses `clap`. The axes, the seeds and the shard stay texts, which the crate `study` reads, and so do the names
//! of columns and the processes of a picture.
//!
//! The one contract for the layer above is that of [`read_words`] (`specs/Order.antt`): on `Ok` the arguments state the
//! order, each of its parts by its own argument. On `Err` they ask for help or for the version, or `clap` refuses them
//! for a reason of a kind that they give, or they state no order, or memory was refused.
//!
//! For example, `fdstudy sweep a.toml --seeds 1..=20 --vary detector.timeout=10,20` is `Order::Sweep` with the path
//! `a.toml`, the seeds `1..=20` and the one varied axis `detector.timeout=10,20`; `fdstudy sweep a.toml` is a
//! [`WordsError::Mistake`], as the seeds are missing; `fdstudy sweep --help` is [`WordsError::Help`], and
//! `fdstudy --version` [`WordsError::Version`]. `check` takes a study as well, or none: so
//! `fdstudy check a.toml --shard 1/2` is [`WordsError::Form`].
#![tactic(auto)]

mod command;
mod order;
mod version;

pub use order::{
    Each, GridTexts, Order, Picture, PictureTexts, SourceTexts, StudyTexts, WordsError, read_words,
};
pub use version::version_line;
