//! Windows: the same trace by workers that share the processes.
//!
//! A window is a half-open stretch of ticks `[w, w + W)`, cut at the horizon and no longer than the lookahead. A letter
//! from one process to another takes at least the lookahead, so a letter that is sent inside a window is due at its end
//! or later, and inside the window no process can reach another. Workers may therefore take the processes in any order
//! and run each by itself (conservative windows, as in textbooks: R. M. Fujimoto, Parallel and Distributed Simulation
//! Systems, Wiley, 2000). A [`Plan`] says how many workers there are and how long a window is.
//!
//! The definition is a machine over single acts of the workers, in `window_laws`: a run is any list of allowed acts
//! whose one close is the last. [`law_any_order`] says that the order of the acts doesn't matter. Some run makes of a
//! window just what each process makes of it by itself. So it is enough to run each process to the window's end,
//! wherever and whenever that happens.
//!
//! The code runs it so. A [`Stage`] has a [`Berth`] for each process: its machine, its pending events, and its part of
//! the trace. [`run_window`] takes a worker for each process that has an event below the window's end, but no more than
//! the plan has, and deals these processes to the workers' deques in turn, by rising number. Then it starts the
//! workers, each a thread. A worker takes a berth, tells the [`Gate`], and runs it to the window's end as [`run_berth`]
//! does, but for the letters: they wait in the worker's tray until it has run its last berth, or some 1,024 wait there.
//! It pops its own deque. When that is empty it steals from the others, the next one first, until it has found each of
//! them empty. Its berths share one memory for the window's events. When all workers are joined, the starter takes what
//! is left in the deques. Then each process gets its mailbox as it is: the worker that runs the process next empties
//! it. Where several refusals are met, that of a thread is answered before that of memory, and this before that of a
//! place in the trace. The next window opens at the least pending tick. The starter merges the parts of a window and
//! hands them to a [`Sink`], piece by piece, while the workers of the next window run. The memory of merged parts holds
//! later parts.
//!
//! The crate `deques` promises that each berth comes out of the deques once. Its proof uses the ledger of each deque:
//! counted with repetitions, the items that were put are those that all passes have taken and those that the deque
//! holds. A pop or a steal gets one of the items that were put.
//!
//! The one contract for the layers above is that of [`run_windows_into`]: on `Ok`, under every schedule of the threads,
//! the sink took the trace that the event list gives; [`run_windows`] is the same with a sink that keeps. No contract
//! says that a call returns, that threads run at once, or which worker takes which process.
//!
//! For example, two processes send each other letters that take 2 ticks, one at tick 0 and one every 4 ticks. They look
//! at each other every 3 ticks, and the second crashes at tick 3. The horizon is 10. Windows of 2 ticks have 2, 4, 2, 2
//! and 2 entries, whoever runs first in each.
#![tactic(auto)]

mod agenda;
mod berth;
mod chore;
mod error;
mod gate;
mod gather;
mod laws;
mod outbox;
mod plan;
mod run;
mod shared;
mod sink;
mod stage;
mod window;
mod workers;

pub use berth::{Berth, run_berth};
pub use error::PlanError;
pub use gate::{Gate, OpenGate};
pub use laws::law_any_order;
pub use plan::Plan;
pub use run::{run_windows, run_windows_into};
pub use sink::Sink;
pub use stage::Stage;
pub use window::run_window;
pub use workers::both;
