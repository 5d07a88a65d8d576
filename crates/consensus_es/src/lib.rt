//! Consensus by rotating coordinators, with a failure detector of class eventually-S, and the diffusion of its
//! decisions (both of Chandra and Toueg, Journal of the ACM 43(2), 1996).
//!
//! [`EsConsensus`] is one process's part in it: the state of a machine that is told its inputs one by one, and with
//! each the processes that its detector suspects by then. It answers with letters and notes. Its one contract is that
//! of `process_api`'s `Algorithm`: on `Ok`, a call of `take` is the definition (`specs/Coordinator.antt` of
//! `process_api`), and nothing else. This crate's own `specs/` only say how tables and sets
//! in memory stand for that definition's state, and what is true of every state that a process comes to.
//!
//! For example, process 1 of three opens with the proposal 10. At its start it notes round 1 and sends its estimate, 10
//! with the stamp 0, to process 2, the coordinator of round 1. When the proposal of process 2 comes, process 1 adopts
//! it, sends an ack to process 2, and enters round 2, whose coordinator is process 3. When a decision of round 1 comes,
//! process 1 passes it on to all three, and notes that it has decided. From then on only decisions of other rounds have
//! an effect: process 1 passes each on once.
//!
//! [`Diffusion`] is the second half of that by itself: it has the rounds whose decision was received, and passes
//! decisions on. [`Progress`] is the first half: it says how far a process has come. [`Membership`] is known to both:
//! the process's own number, and the number of all processes. [`Letters`] keeps the letters of a kind, of which
//! [`best`] chooses the estimate with the largest stamp. [`law_settled`] says what follows from the definition: waits
//! end as long as one of them can, one input makes few actions and leaves few rounds, and the best estimate is chosen.
#![tactic(auto)]

mod consensus;
mod diffusion;
mod laws;
mod progress;
mod proposals;

pub use consensus::EsConsensus;
pub use diffusion::Diffusion;
pub use laws::law_settled;
pub use process_api::{Letters, Membership};
pub use progress::{Progress, best};
