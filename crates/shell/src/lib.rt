//! The part of a program around its work, whatever that is: the arguments of `main`, inputs that are read, texts that
//! go out, faults that are told, and the status with which a run ends.
//!
//! It is generic in the program's faults. A [`Failure`] has a status, a line, and the part that it leaves of the text
//! that was to be written (`specs/Ending.antt`). These are the contracts for the layers above:
//!
//! - [`read_all`] reads an input to its end, [`bytes_at`] a file, or the input where the path is `-`. Both read at most
//!   8,388,608 bytes, and one more to see that there are too many. Where the bytes of an input are known, as those of a
//!   text in memory are, `Ok` is all of them, and `TooLong` comes only where they are more than that. No contract knows
//!   the bytes of a file or a terminal: there only the length is promised.
//! - [`lent`] lends the arguments as texts, all of them and in their order.
//! - [`put_bytes`] and [`put_text`] write whole, or answer the failure of a write, and then a front part went out.
//! - [`ended`] answers the status of a run: 0 where it is done, and nothing is told; else that of its failure, of which
//!   the line is told. `proofs/Leaving.antt` has what follows for the outlet and the line, status by status. For words
//!   that state an order or are refused, `specs/Ending.antt` defines how their run ends.
//! - [`finish`] flushes, and turns 0 into 4 where that fails.
//!
//! For example, a run that is refused for its limit answers a failure with status 3 and the line `fdbench: run: Limit`;
//! [`ended`] puts that line and answers 3.
#![tactic(auto)]

mod ending;
mod failure;
mod input;
mod path;
mod words;
mod writing;

pub use ending::{ended, finish};
pub use failure::{Failure, report};
pub use input::{InputError, read_all};
pub use path::bytes_at;
pub use words::{NoWords, lent, words_of};
pub use writing::{put_bytes, put_text, tell_pieces, tell_text};
