//! Diagnoses, which say what a scenario's file has, or where and why it is refused.
//!
//! [`diagnose`] takes a file's bytes and answers a [`Diagnosis`]. Of an accepted file it says how many processes there
//! are, how long the run and its windows last, its limit, and about how large the run will be. Of a refused one it has
//! the refusal, which is that of `read_scenario`, and the line that tells it, `LinkNumbers: links[2500]: min 21 is
//! above max 20`. [`diagnose_table`] does so for a file's table whose bytes were read already.
//!
//! The fault that the line names is in the file, and breaks the rule of the refusal: `scenario` found it where it
//! refused the file (`scenario/specs/Faults.antt`). A suggested key is the table's, and none of its keys is nearer
//! (`specs/Diagnosis.antt`). Line and column are those of a place of the file, and the words are
//! those of `specs/Text.antt`, with these numbers. Only tests, and no proof, show that a fault is found in each refused
//! file that is TOML; where none is found, the line has the refusal alone. The estimate is tested only too, but for a
//! window's share.
#![tactic(auto)]

mod answer;
mod estimate;
mod keys;
mod position;
mod text;
mod told;

pub use answer::{Accepted, Diagnosis, Refused, diagnose, diagnose_table};
pub use estimate::{ENTRIES_A_SECOND, Estimate, HIGHEST_LIMIT, estimate_of};
pub use keys::edits_between;
pub use told::{NotToml, Told};
