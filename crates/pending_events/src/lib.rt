//! The pending events of a run: a finite set in the order of their keys, of which the least is taken.
//!
//! Contracts see a [`Pending`] and a [`Row`] as such a set (`specs/Pending.antt`). In memory a [`Pending`] has a bucket
//! of events for each tick. When the tick of a bucket comes, its events are put in order, in a [`Row`]
//! (`specs/Inside/Calendar.antt`). The buckets of the next 1,024 ticks lie in a ring.
//!
//! For example, of the events with keys (2, 1, 2, 1) and (0, 2, 2, 0) that join in this order the second is taken
//! first.
#![tactic(auto)]

mod calendar;
mod joins;
mod order;
mod pending;
mod row;
mod served;

pub use pending::Pending;
pub use row::Row;
