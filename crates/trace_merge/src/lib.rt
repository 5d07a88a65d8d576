//! Merging of the parts of a trace.
//!
//! A parallel run leaves one part of the trace for each process, each with strictly rising keys. Merged, they are the
//! trace. [`Merging`] answers it in pieces, which go out of memory as they are handed on: the contract for the layers
//! above is that a piece, and then what the rest of the parts merges to, is what the parts merge to. [`merge`] answers
//! it whole: a strictly rising list of exactly the entries of the parts.
//!
//! For example, parts with the keys (0,1,1,0) (3,1,1,2), no key, and (0,2,2,0) merge to the keys (0,1,1,0) (0,2,2,0)
//! (3,1,1,2). In pieces of at least one entry these are the first two, which have one tick, and then the last.
#![tactic(auto)]

mod by_tick;
mod joined;
mod pieces;

pub use pieces::{Merging, merge};
