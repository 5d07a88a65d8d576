//! The command line of `fdbench`: the arguments and the order that they ask for.
//!
//! [`read_words`] reads the arguments, of which the first is the program's name, as a simple command: `check`, `list`,
//! `run` or `compare`, each with its own arguments and options. It answers the [`Order`] that `clap` finds in them, or
//! the text about arguments that make none. The crate stands apart from the program, so that nothing else uses `clap`.
//!
//! The one contract for the layer above is that of [`read_words`] (`specs/Order.antt`): on `Ok` the arguments state the
//! order, each of its parts by its own argument. On `Err` they ask for help, or `clap` refuses them for a reason of a
//! kind that they give, or they state no order, or memory was refused.
//!
//! For example, `fdbench list one_crash.toml --print trace` is `Order::List` with the path `one_crash.toml` and the
//! trace to print; `fdbench list` alone is [`WordsError::Form`], as `clap` requires nothing; and `fdbench list --help`
//! is [`WordsError::Help`].
#![tactic(auto)]

mod command;
mod order;

pub use order::{Order, WordsError, read_words};
