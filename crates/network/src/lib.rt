//! Network files, which say what a network does to links while a run lasts. Each seed draws this anew.
//!
//! A [`Network`] has tables of sources. A source makes outages of links. A burst makes those of one link, a cut those
//! of all links between two groups at once, a pause those of all links from one process, and a replay those of one link
//! as they were recorded. Each source draws from a stream of words of its own, under the run's seed
//! (`specs/Words.antt`), so no other table changes what it draws. Its gaps and lengths are [`Spell`]s
//! (`specs/Drawn.antt`), which follow one another in turn.
//!
//! [`read_network`] gives the network that the table of a TOML file stands for (`specs/Reading.antt`), or says what is
//! wrong with the file (`specs/Refusals.antt`). The number of a run's processes isn't known then: [`process_above`]
//! finds a process that the network names and a run doesn't have.
//!
//! [`draw`] gives the outages of all sources up to the horizon, in their fixed order (`specs/Drawn.antt`), and
//! [`laid_links`] gives what the network says of links (`specs/Laid.antt`). `base_tests` has the tests, with values
//! from outside, by `bench/network.py`.
//!
//! For example, take seed 1 and a burst with gaps of 50 ticks and lengths of 10 on the link from process 1 to process 2
//! of two. Up to tick 100 it has the outages from tick 6 to 16 and from tick 66 to 76.
#![tactic(auto)]

mod above;
mod add;
mod check;
mod drawing;
mod error;
mod field;
mod group;
mod kind;
mod laid;
mod network;
mod outages;
mod read;
mod reading;
mod refusal;
mod replay;
mod rhythm;
mod shape;
mod source;
mod spell;
mod tables;
mod together;
mod words;

pub use above::{Above, process_above};
pub use drawing::draw;
pub use error::DrawError;
pub use field::{Shape, TABLES, TableKind, keys_of};
pub use group::{Ends, Group, LinkSet};
pub use kind::law_streams;
pub use laid::{LaidLink, laid_links};
pub use network::{Burst, Cut, LinkTable, Network, Pause, Replay};
pub use outages::MOST_OUTAGES;
pub use read::read_network;
pub use refusal::{NetworkError, TableFault, ValueFault, law_refusals};
pub use rhythm::Rhythm;
pub use scenario::LinkOutage;
pub use spell::Spell;
