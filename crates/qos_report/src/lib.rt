//! Runs that write their texts: a scenario and its machines go in, and texts go out to an outlet.
//!
//! [`bench_windows`] runs a scenario by windows that worker threads share. It has the promise of `bench_list`, which
//! runs it by the single event list: on `Ok` the outlet has grown by exactly the texts of the scenario's one trace,
//! whatever the threads did, and the [`Summary`] is that trace's (`Finishes` in the definitions of `runs`). A run
//! that is refused has written the trace's header and whole rows of its first entries, where the trace is asked for,
//! and nothing of the report (`BreaksOff`). Where memory was refused at the opening, nothing went out.
//!
//! The trace goes out piece by piece: its header before the first window, and the rows of a window's entries once the
//! window is closed (`specs/Inside/Streaming.antt`). It holds no entry of a closed window.
//!
//! Measures, texts and outlets are those of `reporting`, and [`bench_list`] and [`measures`] those of `runs`. They are
//! exported again from here.
//!
//! For example, two processes of which the second crashes, by two workers and windows of 2 ticks, write the report that
//! `bench_list` writes of them.
#![tactic(auto)]

mod bench;
mod streaming;

pub use bench::bench_windows;
pub use process_api::PrintChoice;
pub use reporting::{
    Detection, FuseOutlet, MemoryOutlet, Meter, Outlet, PairMeasures, StreamOutlet, Summary,
    write_report, write_trace,
};
pub use runs::{bench_list, measures};
