//! Takes the entries of a run by windows.
ghost use Rattle.std.specs.Prelude.{◌≡◌, ◌<◌, ◌^◌, ◌-◌, ◌+◌, map, length, true, OnOk, OnErr, IfErr, IfOk, IsErrOf, IsTrue};
ghost use Rattle.{process_api.specs.Place.{numbers_to}, scenario_record.specs.Record.{opening_mind}};
ghost use Rattle.runs.specs.Finishing.{IsLonger};
ghost use Rattle.qos_report.specs.Inside.Streaming.{AreUnderWay, HasStreamed, StreamedFront, StreamedTrace, WithRow, WroteFront, WroteWhere};
ghost use Rattle.reporting.specs.{TraceText.{handed, rows_text, trace_header}, Outlet.{Wrote, WrotePart}};
ghost use Rattle.windows.specs.{Plan.{IsPlanFor}, Stage.{IsRefusalOfSink, writes_of}};

use process_api::{Entry, Process, RunError, follow_all};
use reporting::{HEADER, Outlet, Running, TraceText, write_text};
use scenario_record::Scenario;
use std::alloc::Global;
use std::marker::Sync;
use std::sync::Wait;
use std::thread::Threads;
use windows::{Gate, Plan, Sink, run_windows_into};

/// How long rows may get before they are handed on, though more are to come. The last 8,192 bytes at most don't count,
/// which `csv` holds in a buffer of its own.
const MOST_BYTES: usize = 57_344;

/// Forms one row more, and hands all of them on where they got long: less than 65,536 bytes are kept.
fn write_row<O: Outlet>(entry: &Entry, rows: &mut TraceText, outlet: &mut O) -> Result<(), RunError>
    requires { O.failed outlet.old < 2 ^ 64 - 1 }
    ensures whole { OnOk result (WithRow O.told O.failed entry.now outlet.old rows.old
        (λ first all. AreUnderWay O.told O.failed first outlet.new all rows.new)) }
    ensures front { OnErr result (WithRow O.told O.failed entry.now outlet.old rows.old
        (λ first all. WroteFront O.told O.failed first outlet.new true all)) }
    ensures short { OnOk result (length (handed rows.new) < 57344) }
    ensures errors { IfErr result IsRefusalOfSink }
    ensures count { O.failed outlet.new ≡ O.failed outlet.old + writes_of result }
{
    rows.push(entry)?;
    if rows.handed() >= MOST_BYTES {
        let text = rows.take_text()?;
        write_text(&text, outlet)?;
    }
    Ok(())
}

/// Writes the rows of entries. They go out as they get long, and in the end.
fn write_rows<O: Outlet>(alloc: Global, entries: &[Entry], outlet: &mut O) -> Result<(), RunError>
    requires { O.failed outlet.old < 2 ^ 64 - 1 }
    ensures whole { OnOk result (Wrote O.told O.failed outlet.old outlet.new (rows_text entries.now)) }
    ensures front { OnErr result (WroteFront O.told O.failed outlet.old outlet.new true entries.now) }
    ensures errors { IfErr result IsRefusalOfSink }
    ensures count { O.failed outlet.new ≡ O.failed outlet.old + writes_of result }
{
    let mut rows = TraceText::new(alloc, b"")?;
    for entry in entries {
        write_row(entry, &mut rows, outlet)?;
    }
    let text = rows.into_text()?;
    write_text(&text, outlet)
}

/// Measures the entries of a run as its windows close, and writes their rows, where the trace is asked for. It holds
/// the rows of one window at most.
#[derive(Drop)]
pub(crate) struct Streaming<'a, O: Outlet> {
    pub running: Running,
    pub is_traced: bool,
    pub alloc: Global,
    pub outlet: &'a mut O,
}

impl<'a, O: Outlet> Sink for Streaming<'a, O> {
    ghost use Rattle.qos_report.specs.Inside.Streaming.{TookFrontOfPart, TookPart};

    ghost took = { TookPart O.told O.failed };

    ghost took_front = { TookFrontOfPart O.told O.failed };

    ghost failed = { λ s. O.failed s.outlet.now };

    fn part(&mut self, entries: Vec<Entry>) -> Result<(), RunError> {
        follow_all(&mut self.running, &entries)?;
        if self.is_traced {
            write_rows(self.alloc, &entries, self.outlet)
        } else {
            Ok(())
        }
    }

    fn failures(&self) -> u64 {
        self.outlet.failures()
    }
}

/// Writes the first line of a trace, where the trace is asked for.
pub(crate) fn write_header<O: Outlet>(is_traced: bool, outlet: &mut O) -> Result<(), RunError>
    requires { O.failed outlet.old < 2 ^ 64 - 1 }
    ensures whole { OnOk result (WroteWhere O.told O.failed outlet.old outlet.new is_traced trace_header) }
    ensures part { OnErr result (IsTrue is_traced × WrotePart O.told O.failed outlet.old outlet.new trace_header) }
    ensures only { IfErr result (λ reason. reason ≡ RunError.Write) }
{
    if is_traced {
        write_text(HEADER, outlet)
    } else {
        Ok(())
    }
}

/// Runs machines by windows into a sink that streams. There is one machine for each process, of process 1 first, and
/// each opens as the scenario says.
fn run_into<M: Process, G: Gate, O: Outlet, R: Threads + Wait + Sync>(
    rt: &R,
    alloc: Global,
    scenario: &Scenario,
    machines: Vec<M>,
    plan: &Plan,
    gate: &G,
    sink: &mut Streaming<'_, O>,
) -> Result<(), RunError>
    requires machines { map M.mind machines.items
        ≡ map (opening_mind scenario.now) (numbers_to scenario.now.processes) }
    requires plan { IsPlanFor scenario.now plan.now }
    requires failures { O.failed sink.old.outlet.now < 2 ^ 64 - 1 }
    ensures outlet { sink.new.outlet.ghost_name ≡ sink.old.outlet.ghost_name }
    ensures took { OnOk result (HasStreamed scenario.now O.told O.failed sink.old sink.new) }
    ensures front { OnErr result (StreamedFront scenario.now O.told O.failed sink.old.is_traced sink.old.outlet.now
        sink.new.outlet.now) }
    ensures count { O.failed sink.new.outlet.now ≡ O.failed sink.old.outlet.now + writes_of result }
    ensures limit { IsErrOf result RunError.Limit → IsLonger scenario.now }
{
    scenario.recall_ranges();
    run_windows_into(rt, alloc, scenario, machines, plan, gate, sink)
}

/// By which windows a run goes, and whom its workers tell.
#[derive(Drop)]
pub(crate) struct ByWindows<'a, G> {
    pub plan: &'a Plan,
    pub gate: &'a G,
}

/// What is measured of a run as it begins, and whether its trace is asked for.
#[derive(Drop)]
pub(crate) struct Begun {
    pub running: Running,
    pub is_traced: bool,
}

/// Runs machines by windows, and answers what is measured of the run. Where the trace is asked for, the rows of a
/// window's entries go out once it is closed.
///
/// # Errors
///
/// `Spawn` where a thread was refused, `Memory` where memory was, `Limit` where the run has more entries than the
/// scenario's limit, `Write` where a put failed. The rows of windows that were closed before went out, where they are
/// asked for.
pub(crate) fn stream_windows<M: Process, G: Gate, O: Outlet, R: Threads + Wait + Sync>(
    rt: &R,
    alloc: Global,
    scenario: &Scenario,
    machines: Vec<M>,
    by_windows: ByWindows<'_, G>,
    begun: Begun,
    outlet: &mut O,
) -> Result<Running, RunError>
    requires machines { map M.mind machines.items
        ≡ map (opening_mind scenario.now) (numbers_to scenario.now.processes) }
    requires plan { IsPlanFor scenario.now by_windows.plan.now }
    requires failures { O.failed outlet.old < 2 ^ 64 - 1 }
    ensures took { IfOk result (λ run. StreamedTrace scenario.now O.told O.failed begun.is_traced begun.running
        outlet.old run outlet.new) }
    ensures front { OnErr result (StreamedFront scenario.now O.told O.failed begun.is_traced outlet.old outlet.new) }
    ensures count { O.failed outlet.new ≡ O.failed outlet.old + writes_of result }
    ensures limit { IsErrOf result RunError.Limit → IsLonger scenario.now }
{
    let ByWindows { plan, gate } = by_windows;
    let Begun { running, is_traced } = begun;
    let mut sink = Streaming {
        running,
        is_traced,
        alloc,
        outlet,
    };
    let ran = run_into(rt, alloc, scenario, machines, plan, gate, &mut sink);
    let Streaming {
        running,
        is_traced: _,
        alloc: _,
        outlet: _outlet,
    } = sink;
    ran?;
    Ok(running)
}
