//! The deques from which the workers of a window take their work.
//!
//! [`deal`] puts items into so many deques in turn, before any worker starts. Each worker then gets a [`Hand`]: the end
//! of its own deque, and a permit to steal from each. [`Hand::take`] pops the worker's own deque. Where that is empty
//! it steals at the [`Front`] of another, the next one first and then round the circle. Once the workers have ended,
//! their hands come back, and [`Rest`] has the items that nobody took.
//!
//! The one contract for the layers above is that nothing is lost and nothing is taken twice, under every schedule of
//! the threads: counted with repetitions, the items that were dealt are those that the hands took and those that are
//! left (`specs/Deques.antt`). The proof uses the ledger of each deque (`ledger`). Nothing is promised about who takes
//! what, or how long a call waits.
//!
//! For example, three items for two workers: the first deque gets the first and the third, the second the other one. A
//! worker that finds its own deque empty steals the first item of the other's.
#![tactic(auto)]

mod dealing;
mod deque;
mod hand;
mod rule;

pub use dealing::{Dealer, Rest, deal};
pub use deque::Front;
pub use hand::Hand;
