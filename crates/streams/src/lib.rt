//! Numbered streams of random words, and the fates that they give to letters.
//!
//! Each link from one process to another has a stream of its own: ChaCha with 8 rounds (Bernstein, 2008) under the
//! scenario's seed, with the link's number as its stream. The k-th letter of a link, lost ones counted too, takes the
//! two words of its place. A letter that is sent in an outage of its link is lost, whatever these words are. So a
//! letter's fate depends only on its place and on the tick at which it is sent. Another loss on one link changes
//! nothing on any other, and threads may ask in any order.
//!
//! The one contract for the layers above: [`Streams::fate`] is `fate_of` (`specs/Fate.antt`), for every letter, and so
//! is [`Streams::next_fate`], which keeps the words of a sender's next letters ([`SenderWords`]).
//!
//! For example, let the loss be 300, the delays 2 to 9 and the seed 1. Then letters 1 to 6 from process 1 to 2 take 6,
//! 3, 8, 6, 9 and 3 ticks, the seventh is lost, and the eighth takes 7 ticks.
#![tactic(auto)]

mod fate;
mod inverse;
mod kept;
mod streams;
mod words;

pub use fate::Fate;
pub use streams::Streams;
pub use words::SenderWords;
