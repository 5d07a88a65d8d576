//! Reads scenarios from TOML files. A scenario says what a run has to do.
//!
//! [`read_scenario`] takes a file's bytes and answers the [`Scenario`] that the file stands for, or the one reason for
//! which it is refused. Its contract is this crate's one promise. `Ok` is the record of the file's table
//! (`specs/Text.antt`) with the defaults filled in, and every field is in its range. An error is the refusal of the
//! first rule that applies. Each rule is a test of the whole table by itself (`specs/Rules.antt`); the order in which
//! they are tried is a list of its own (`specs/Refusals.antt`). So a file with several faults always gets the same
//! answer, whatever the order of its lines. Only `Memory` may be answered at any point. [`read_table`] is the second
//! half of that call: it reads the table of a file whose bytes were read already. [`read_with_outages`] reads such a
//! table together with outages that were drawn. Its answer is that of [`read_table`] for the table to which these
//! outages are added (`specs/Drawn.antt`), but it makes no such table.
//!
//! The type [`Scenario`] is defined in `scenario_record`, on which the crates that run a scenario depend. It is
//! exported again from here.
//!
//! For example, a file says that two processes watch each other for ten ticks, that a letter takes two ticks, and that
//! process 2 crashes at tick 3. Then `crash` answers 3 for process 2 and nothing for process 1, `link` from 1 to 2 is
//! that of the table `link`, and `limit` is 1,000,000, since the file doesn't name it. With `min = 1` in that table,
//! where the lookahead is 2, the file is refused: `BelowLookahead` from 1 to 2.
#![tactic(auto)]

mod below;
mod crashes;
mod detector;
mod drawn;
mod error;
mod fault;
mod field;
mod finding;
mod found;
mod keys;
mod links;
mod names;
mod numbers;
mod outages;
mod parts;
mod place;
mod proposals;
mod proposals_fault;
mod read;
mod table;
mod table_fault;
mod twice;

pub use drawn::LinkOutage;
pub use error::ScenarioError;
pub use fault::{
    BelowLookahead, Fault, MinAboveMax, NotBefore, OtherName, Outside, ProposalsFault, UnknownKey,
    WrongKind,
};
pub use field::{Field, Kind};
pub use finding::{Finding, Refused};
pub use numbers::lies_within;
pub use place::{Place, Section, TableArray};
pub use read::{read_scenario, read_table, read_with_outages, read_with_place};
pub use scenario_record::{AlgorithmKind, Link, Opening, Outage, Scenario};
pub use table::is_listed_key;
