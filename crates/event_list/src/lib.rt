//! The single event list: the run that gives a scenario's trace.
//!
//! A world is the processes, how much each put on its links, and a finite set of pending events. The list takes the
//! least pending event, by tick, receiver, sender and number, again and again. The receiver takes the event's input.
//! Its actions count on its links and add events; a crashed receiver does nothing. Events at the horizon or later never
//! join. Each step is an entry of the trace. All this is defined in `trace_laws`, for any kind of minds, any reaction
//! and any fates, from any world up to any tick; one definition there says what a scenario is to it.
//!
//! The one contract for the layers above: [`run_list`], on `Ok`, gives the defined trace, and it answers `Limit` only
//! where the whole trace has more entries than the scenario's limit. [`law_only_history`] says what a trace is without
//! any list: it is the only closed history of its scenario, in which each entry but the starts has one cause, and each
//! event that is added below the horizon is taken once. [`run_list`] says these two of the trace that it gives.
//! [`run_list_into`] makes the same run without holding its trace. It tells a follower of each entry as it comes
//! (`specs/Following.antt`). It tells a [`Listener`] of each letter between different processes as it is put on its
//! link (`specs/Posting.antt` of `steps`), also of those that are lost or late, which no trace has. [`Nobody`] is the
//! listener that hears nothing.
//!
//! The step of a process is that of `steps`, and the set of pending events is that of `pending_events`. Both are
//! exported again from here.
//!
//! For example, two processes send each other a letter at tick 0 that takes 2 ticks, and the second crashes at tick 1.
//! The trace has a `start` of each at tick 0, process 1 takes its letter at tick 2, and the letter to process 2 at tick
//! 2 is `dead`.
#![tactic(auto)]

mod laws;
mod list;

pub use laws::law_only_history;
pub use list::{run_list, run_list_into};
pub use pending_events::Pending;
pub use process_api::RunError;
pub use steps::{Event, Joins, Listener, Nobody, Seat, kind_of_letter};
