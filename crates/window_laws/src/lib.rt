//! Laws of the definitions of a run by windows, whatever code runs it.
//!
//! `specs/Machine.antt` has the window machine: berths in which each process acts alone, whose letters to others wait
//! in mailboxes until the window closes. `specs/Theorems.antt` says what a window's result is, and which histories the
//! machine allows. It is proved here that each order of acts gives the same result (`proofs/Order.antt`), that each
//! window can be run (`proofs/Exists.antt`), and that all windows together are the trace of the single event list
//! (`proofs/Whole.antt`). This crate has no code. The contract of `law_any_order` of `windows` names these laws, and
//! the calls of `windows` use them.
//!
//! For example, where two processes each have one event in a window, the result is the same whichever of them acts
//! first.
#![tactic(auto)]
