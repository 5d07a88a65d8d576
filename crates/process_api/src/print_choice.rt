//! The choice of what is printed of a run.

/// Which texts of a run are written.
#[derive(Clone, Copy, Debug, PartialEq, Eq)]
pub enum PrintChoice {
    /// The trace, entry by entry.
    Trace,
    /// The report: verdicts, measures and decisions.
    Report,
    /// The trace, and then the report.
    Both,
}
