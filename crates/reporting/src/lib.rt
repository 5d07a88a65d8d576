//! The measures of a run's failure detectors, and the texts of a run: entries go in, findings and texts come out. No
//! machine is run here.
//!
//! The measures of a pair of processes on a layer are the quality of service of a failure detector after Chen, Toueg
//! and Aguilera (IEEE Transactions on Computers 51(5), 2002), as sums and counts over the ticks of one run
//! (`specs/Measures.antt`). [`write_trace`] writes a row for each entry of a trace (`specs/TraceText.antt`), and
//! [`write_report`] a row for each number of the run, each verdict, each measure and each decision
//! (`specs/ReportText.antt`). Texts go to an [`Outlet`]: over memory, over any writer, or over memory with a fuse that
//! blows. The last one shows what a failed write leaves.
//!
//! These are the contracts for the layers above:
//!
//! - Whoever follows a run is opened, told the run's entries as they come, and closed. What is told in the end is that
//!   of these entries, by definition (`specs/Running.antt`): by [`open_running`] and [`close_running`] the [`Summary`],
//!   and the report where it is asked for; by [`open_recording`] and [`write_recorded`] also the text of the trace; by
//!   [`open_measuring`] and [`close_measuring`] all that is measured, with no text: the [`RunFindings`], and how long
//!   each mistake was that ended (`specs/Running.antt`, `specs/Durations.antt`).
//! - [`Meter`] gives the measures of one pair on one layer with no trace at hand: it is fed with the entries as they
//!   come (`specs/Meter.antt`).
//! - [`write_trace`] and [`write_report`] write one text of any trace, whole or a front part (`specs/Outlet.antt`).
//! - [`letters_text`] is the text of [`Letter`]s as comma-separated values (`specs/LettersText.antt`).
//! - [`Outlet`] says what a put does, and [`put_all`] hands on a whole piece up to the first put that fails.
//!
//! Nothing is ever tried again. Each text is formed whole before the first of its bytes is written. Rows are formed by
//! `csv` over memory, their numbers by `itoa`; the fields that all rows of a subject begin with are formed once, and
//! reach `csv` as one. All that is measured of a run takes one pass over its entries, by
//! followers put together ([`Running`]): an entry without notes is counted, and no more. That pass can be the run
//! itself, so no entry is held. A run whose report alone is asked for holds nothing that grows with the run. A run that
//! is only measured holds the length of each mistake.
//!
//! [`Rows`] is a text that grows row by row, [`TraceText`] one that grows with the entries of a trace, and
//! [`name_of_kind`] is the one table of the names of kinds of entries. The trace, the report and the list of letters
//! are made of these.
//!
//! For example, let process 2 of two crash at tick 3 of 10, and process 1 note at tick 9 that it suspects it. The
//! report says so in the row `pair,1,1,2,detection,6`: on layer 1, observer 1 and subject 2, 6 ticks.
#![tactic(auto)]

mod asked;
mod counts;
mod digits;
mod durations;
mod findings;
mod following;
mod fuse_outlet;
mod kinds;
mod layer;
mod layer_pairs;
mod letter;
mod letter_text;
mod memory_outlet;
mod meter;
mod notes;
mod outlet;
mod pair_measures;
mod pair_tally;
mod report;
mod report_rows;
mod rows;
mod stream_outlet;
mod summary;
mod tally;
mod telling;
mod trace_text;
mod values;
mod writing;

pub use asked::{prints_report, prints_trace};
pub use counts::Counts;
pub use durations::{Durations, RunDurations};
pub use findings::RunFindings;
pub use following::{
    Layers, Measuring, Recording, Running, Summing, open_measuring, open_recording, open_running,
};
pub use fuse_outlet::FuseOutlet;
pub use kinds::name_of_kind;
pub use layer::Layer;
pub use letter::{Letter, LetterFate};
pub use letter_text::letters_text;
pub use memory_outlet::MemoryOutlet;
pub use meter::Meter;
pub use outlet::{Outlet, put_all};
pub use pair_measures::{Detection, PairMeasures};
pub use process_api::PrintChoice;
pub use rows::Rows;
pub use stream_outlet::StreamOutlet;
pub use summary::Summary;
pub use telling::{close_measuring, close_running};
pub use trace_text::{HEADER, TraceText};
pub use writing::{write_if_any, write_recorded, write_report, write_text, write_trace};
