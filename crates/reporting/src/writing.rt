//! Writing the texts of a finished trace.
ghost use Rattle.std.specs.Prelude.{◌≡◌, ◌≢◌, ◌^◌, ◌-◌, ◌<◌, Err, OnOk, IfErr, IfOk};
ghost use Rattle.reporting.specs.{ReportText.{items_of, report_text}, Running.{IsSummary, OfPrinted, OfRecorded}, TraceText.{trace_text}, Outlet.{Wrote, WrotePart, WroteNothing}};

use crate::following::{Recording, open_running};
use crate::outlet::{Outlet, put_all};
use crate::summary::Summary;
use crate::telling::{close_recording, close_running};
use crate::trace_text::text_of_trace;
use process_api::{RunError, Trace, follow_all};
use scenario_record::Scenario;
use std::alloc::Global;

/// Writes a text that is whole, or answers `Write` at the first put that fails.
pub fn write_text<O: Outlet>(text: &[u8], outlet: &mut O) -> Result<(), RunError>
    requires { O.failed outlet.old < 2 ^ 64 - 1 }
    ensures whole { OnOk result (Wrote O.told O.failed outlet.old outlet.new text.now) }
    ensures part { result ≡ Err RunError.Write → WrotePart O.told O.failed outlet.old outlet.new text.now }
    ensures only { IfErr result (λ reason. reason ≡ RunError.Write) }
{
    if put_all(outlet, text) {
        Ok(())
    } else {
        Err(RunError::Write)
    }
}

/// Writes the text of a trace: a header line, and a row for each entry. The whole text is formed before any of it is
/// written.
///
/// # Errors
///
/// `Memory` where memory was refused; then nothing was written. `Write` where a put failed; then a front part of the
/// text went out.
pub fn write_trace<O: Outlet>(alloc: Global, trace: &Trace, outlet: &mut O) -> Result<(), RunError>
    requires { O.failed outlet.old < 2 ^ 64 - 1 }
    ensures whole { OnOk result (Wrote O.told O.failed outlet.old outlet.new (trace_text trace.now)) }
    ensures part { result ≡ Err RunError.Write
        → WrotePart O.told O.failed outlet.old outlet.new (trace_text trace.now) }
    ensures memory { result ≡ Err RunError.Memory → WroteNothing O.told O.failed outlet.old outlet.new }
    ensures only { (result ≢ Err RunError.Limit) × (result ≢ Err RunError.Spawn) }
{
    match text_of_trace(alloc, trace.entries()) {
        Ok(text) => write_text(&text, outlet),
        Err(_) => Err(RunError::Memory),
    }
}

/// Writes the texts of a run that was recorded, and answers its summary. Both are formed before any text is written.
///
/// # Errors
///
/// `Memory` where memory was refused; then nothing was written. `Write` where a put failed; then a front part of the
/// texts went out.
pub fn write_recorded<O: Outlet>(
    alloc: Global,
    scenario: &Scenario,
    recording: Recording,
    outlet: &mut O,
) -> Result<Summary, RunError>
    requires { O.failed outlet.old < 2 ^ 64 - 1 }
    ensures whole { OnOk result (
        OfPrinted scenario.now recording (Wrote O.told O.failed outlet.old outlet.new)) }
    ensures summed { IfOk result (λ s.
        OfRecorded scenario.now recording (λ print trace. IsSummary scenario.now trace s)) }
    ensures part { result ≡ Err RunError.Write
        → OfPrinted scenario.now recording (WrotePart O.told O.failed outlet.old outlet.new) }
    ensures memory { result ≡ Err RunError.Memory → WroteNothing O.told O.failed outlet.old outlet.new }
    ensures only { (result ≢ Err RunError.Limit) × (result ≢ Err RunError.Spawn) }
{
    let (summary, text) = close_recording(alloc, scenario, recording)?;
    write_text(&text, outlet)?;
    Ok(summary)
}

/// Writes a text, if there is one.
pub fn write_if_any<O: Outlet>(text: Option<Vec<u8>>, outlet: &mut O) -> Result<(), RunError>
    requires { O.failed outlet.old < 2 ^ 64 - 1 }
    ensures whole { OnOk result (Wrote O.told O.failed outlet.old outlet.new (items_of text)) }
    ensures part { result ≡ Err RunError.Write → WrotePart O.told O.failed outlet.old outlet.new (items_of text) }
    ensures only { IfErr result (λ reason. reason ≡ RunError.Write) }
{
    match text {
        None => Ok(()),
        Some(text) => write_text(&text, outlet),
    }
}

/// Writes the report of a finished trace: a header line, and a row for each number of the run, each verdict on a layer,
/// each measure of a pair and each process's decision. The whole text is formed before any of it is written.
///
/// # Errors
///
/// `Memory` where memory was refused; then nothing was written. `Write` where a put failed; then a front part of the
/// text went out.
pub fn write_report<O: Outlet>(
    alloc: Global,
    scenario: &Scenario,
    trace: &Trace,
    outlet: &mut O,
) -> Result<(), RunError>
    requires { O.failed outlet.old < 2 ^ 64 - 1 }
    ensures whole { OnOk result (Wrote O.told O.failed outlet.old outlet.new (report_text scenario.now trace.now)) }
    ensures part { result ≡ Err RunError.Write
        → WrotePart O.told O.failed outlet.old outlet.new (report_text scenario.now trace.now) }
    ensures memory { result ≡ Err RunError.Memory → WroteNothing O.told O.failed outlet.old outlet.new }
    ensures only { (result ≢ Err RunError.Limit) × (result ≢ Err RunError.Spawn) }
{
    let mut running = open_running(alloc, scenario, true)?;
    follow_all(&mut running, trace.entries())?;
    let (_summary, report) = close_running(alloc, scenario, running)?;
    write_if_any(report, outlet)
}
