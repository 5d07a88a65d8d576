//! Consensus with a failure detector of class S, by an exchange of vectors (Chandra and Toueg, Journal of the ACM
//! 43(2), 1996).
//!
//! Each of n processes knows a vector of n cells, at first its own proposal alone. In rounds 1 to n - 1 it sends the
//! cells that the round before brought it, waits until a letter of each process came in this round or the process is
//! suspected, and fills its empty cells from the letters. In round n it sends all that it knows, waits in the same way,
//! empties each cell that is empty in some letter, and decides the value of the first cell that is left.
//!
//! [`SConsensus`] is the algorithm at one process, and its one contract is that of `process_api::Algorithm`: on `Ok`,
//! `take` is the definition (`ConsensusS` in the specs of `process_api`), for every input. So it keeps just the letters
//! that the definition keeps. It drops those of rounds that are left or that the algorithm doesn't have, those of
//! senders above n, those with vectors of another length, those from the process itself for a later round, and second
//! ones. The letters of a round are dropped when the round is left.
//!
//! [`law_settled`] says what follows from the definition: waits end as long as one of them can, so that after an input
//! no wait is over.
//!
//! For example, one process alone with proposal 7 sends its last vector to itself at its start, and decides 7 when that
//! comes.
#![tactic(auto)]

mod exchange;
mod laws;
mod letters;
mod machine;
mod vectors;

pub use laws::law_settled;
pub use machine::SConsensus;
