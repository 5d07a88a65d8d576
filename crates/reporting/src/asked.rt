//! The texts that are asked for.
ghost use Rattle.std.specs.Prelude.{◌≡◌};
ghost use Rattle.reporting.specs.ReportText.{prints_report, prints_trace};

use process_api::PrintChoice;

/// Whether the trace is asked for.
pub fn prints_trace(print: PrintChoice) -> bool
    ensures { result ≡ prints_trace print }
{
    matches!(print, PrintChoice::Trace | PrintChoice::Both)
}

/// Whether the report is asked for.
pub fn prints_report(print: PrintChoice) -> bool
    ensures { result ≡ prints_report print }
{
    matches!(print, PrintChoice::Report | PrintChoice::Both)
}
