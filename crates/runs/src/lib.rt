//! Runs by the single event list, and what comes of them: a scenario and its machines go in, and texts, findings or
//! letters come out. No thread is started.
//!
//! `reporting` measures the entries and forms the texts. Here machines are run for it, and here it is said what holds
//! of a run, whatever its machines, links and crashes do: each suspicion on layer 2 rests on one of layer 1, and the
//! bounds of the detector are kept (`specs/Grounds.antt`).
//!
//! - [`bench_list`] writes the texts that are asked for. On `Ok` the outlet has grown by exactly these texts of the
//!   scenario's trace, which is within the limit, and the summary is that trace's; with the rotating coordinator its
//!   outcomes agree, each process decides at most once, and none notes that it ends with no value (`Finishes` of
//!   `specs/Finishing.antt`). `Write` is answered only where a put failed, and then a front part of these texts went
//!   out; `Limit` comes only of a trace that is longer than the limit. After any other refusal nothing was written
//!   (`Refuses`, there too). It never answers `Spawn`.
//! - [`measure_list`] forms no text. It tells all that is measured of the run, how long each mistake was that ended,
//!   and how often each process was trusted again. On `Ok` all three are those of the scenario's trace, which is within
//!   the limit and has the same grounds (`MeasuresRun`). It answers `Limit` only where that trace is longer, and else
//!   only `Memory`.
//! - [`measures`] runs nothing: it gives a row for each pair on each layer, by definition, of any trace. In the
//!   scenario's trace each mistake or detection on layer 2 rests on an earlier suspicion of layer 1, and each row of
//!   layer 1 keeps to the bounds.
//! - [`letters`] gives the messages from one process to another. A trace tells what each process took: it has no letter
//!   that was lost, or that was due at the horizon or later, and it doesn't say when a letter was sent. The event list
//!   tells a listener of each letter as it is put on its link. It is proved that these are the letters of the
//!   scenario's run, each once, in the order of the steps that sent them, with what became of each
//!   (`specs/Letters.antt`).
//!
//! For example, let process 2 of two crash at tick 3 of 10, and let letters take 2 ticks. Both send a letter at tick 0,
//! which is taken at tick 2. The letters of process 1 at ticks 4 and 8 are due at tick 6, when process 2 is dead, and
//! at tick 10, which is too late. Process 1 notes at tick 9 that it suspects process 2: the report says so in the row
//! `pair,1,1,2,detection,6`.
#![tactic(auto)]

mod bench;
mod book;
mod measured_run;
mod measuring;
mod running;
mod trusts;

pub use bench::bench_list;
pub use measured_run::measure_list;
pub use measuring::measures;
pub use running::letters;
pub use trusts::Trusts;
