//! Fates.

/// What becomes of a letter to another process.
#[derive(Clone, Copy, Debug, PartialEq, Eq)]
pub enum Fate {
    /// It is lost.
    Lost,
    /// It is received after so many ticks.
    Delay(u32),
}
