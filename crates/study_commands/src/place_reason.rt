//! Why a study's files stand for no table of a run, in words.

use crate::network_reason::network_reason;
use std::alloc::{AllocError, Global};
use study::PlaceError;

/// The name of the reason, and what it says.
pub(crate) fn place_reason(alloc: Global, error: &PlaceError) -> Result<String, AllocError> {
    match error {
        PlaceError::Network(error) => {
            let why = network_reason(alloc, error)?;
            format!(in alloc; "network: {why}")
        }
        PlaceError::ProcessAbove(above) => {
            let (kind, number, key) = (above.kind.key(), above.number, above.key);
            let process = above.process.number();
            format!(in alloc;
                "network: NoSuchProcess: {kind}[{number}].{key}: the run has no process {process}"
            )
        }
        PlaceError::Memory(error) => Err(*error),
        error => format!(in alloc; "{error:?}: {error}"),
    }
}
