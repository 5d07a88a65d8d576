//! Comparisons of what came with what was wanted.
use std::fmt::Debug;
use std::process::Abort;

/// Why there is no answer, where memory was refused.
pub const NO_MEMORY: &str = "no memory";

/// What came is what was wanted.
pub fn same<R: Abort, T: PartialEq + Debug>(rt: &R, came: &T, wanted: &T) {
    assert_eq!(rt; came, wanted);
}
