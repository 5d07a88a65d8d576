//! The algorithm that the processes run.

/// The algorithm that the processes run above their detectors.
#[derive(Clone, Copy, Debug, PartialEq, Eq)]
pub enum AlgorithmKind {
    /// `none`: detectors alone.
    Idle,
    /// `s`: consensus with a detector of class S.
    Strong,
    /// `es`: consensus by rotating coordinators, with a detector of class eventually-S.
    EventuallyStrong,
}
