//! Traces and reports, beside the library's numbers of them.

use crate::common::{NO_RUN, same, scenario_of};
use crate::files::{COORDINATORS, ONE_CRASH, ONE_PROCESS};
use crate::judged::{ALL_DECIDE, NOTHING, are_outcomes, trace_of};
use bench_commands::bench::{Mode, bench};
use bench_commands::same_bytes;
use process_api::Trace;
use qos_report::{MemoryOutlet, Outlet, PrintChoice, write_report, write_trace};
use scenario::Scenario;
use std::alloc::Global;
use std::process::Abort;
use windows::OpenGate;

/// What `list` tells of a run, over an outlet that takes all: how many entries and letters there are and how many of
/// these are lost, and what each process decided.
#[test]
fn summaries(rt: HostRuntime) {
    let alloc = rt.alloc();
    let (nobody, all) = ([NOTHING, NOTHING], ALL_DECIDE);
    for (file, print, counts, outcomes) in [
        (ONE_CRASH, PrintChoice::Trace, (12, 4, 0), nobody.as_slice()),
        (
            COORDINATORS,
            PrintChoice::Report,
            (34, 31, 0),
            all.as_slice(),
        ),
    ] {
        let scenario = scenario_of(&rt, alloc, file);
        let mut outlet = MemoryOutlet::new(alloc);
        let summary = bench(
            &rt,
            alloc,
            &scenario,
            Mode::List,
            &OpenGate,
            print,
            &mut outlet,
        );
        let summary = summary.expect(&rt, NO_RUN);
        let came = (summary.entries, summary.sent, summary.lost);
        same(&rt, &(came, outlet.failures()), &(counts, 0));
        are_outcomes(&rt, summary.outcomes.as_slice(), outcomes);
    }
}

/// The texts of one process, which takes its start alone.
const ALONE_TRACE: &[u8] =
    b"tick,receiver,sender,number,kind,sent,lost,notes\n0,1,1,0,start,0,0,\n";

const ALONE_REPORT: &[u8] = b"section,layer,observer,subject,measure,value
run,0,0,0,entries,1
run,0,0,0,sent,0
run,0,0,0,lost,0
verdict,1,0,0,strong_completeness,0
verdict,1,0,0,weak_completeness,0
verdict,1,0,0,strong_accuracy,yes
verdict,1,0,0,weak_accuracy,yes
verdict,1,0,0,eventual_strong_accuracy,0
verdict,1,0,0,eventual_weak_accuracy,0
";

/// The texts of a trace are those of one process that takes its start alone.
fn has_texts<R: Abort>(rt: &R, alloc: Global, scenario: &Scenario, trace: &Trace) {
    let mut rows = MemoryOutlet::new(alloc);
    write_trace(alloc, trace, &mut rows).expect(rt, NO_RUN);
    same(rt, &(rows.bytes(), rows.failures()), &(ALONE_TRACE, 0));
    let mut report = MemoryOutlet::new(alloc);
    write_report(alloc, scenario, trace, &mut report).expect(rt, NO_RUN);
    same(rt, &(report.bytes(), report.failures()), &(ALONE_REPORT, 0));
}

/// Machines that are made here, their run, and the texts of its trace.
#[test]
fn texts_of_a_trace(rt: HostRuntime) {
    let alloc = rt.alloc();
    let scenario = scenario_of(&rt, alloc, ONE_PROCESS);
    let trace = trace_of(&rt, alloc, &scenario);
    has_texts(&rt, alloc, &scenario, &trace);
}

/// Texts, and whether their bytes are the same.
const COMPARED_BYTES: [(&str, &str, bool); 6] = [
    ("ab", "ac", false),
    ("ab", "a", false),
    ("a", "ab", false),
    ("", "a", false),
    ("ab", "ab", true),
    ("", "", true),
];

#[test]
fn bytes_compared(rt: HostRuntime) {
    for (left, right, are_same) in &COMPARED_BYTES {
        let found = same_bytes(left.as_bytes(), right.as_bytes());
        same(&rt, &(*left, *right, found), &(*left, *right, *are_same));
    }
}
