//! A worker's hand: its own deque, and the permits to steal from the others.
ghost use Rattle.std.specs.Prelude.{◌≡◌, vec_len, MatchOption};
ghost use Rattle.deques.specs.Deques.{hand_at, CanHold, TookOne};

use crate::deque::{Front, Owner, Permit};
use std::marker::Model;
use std::sync::Wait;

/// What a worker takes by. Contracts see its own deque with what was put into it, the deques of its permits, all that
/// was put into these, and what it has taken.
#[derive(Drop)]
pub struct Hand<T> {
    /// The place of its own deque among all.
    pub(crate) place: usize,
    pub(crate) owner: Owner<T>,
    /// A permit for each deque, in their order. The permit for its own deque is never used.
    pub(crate) permits: Vec<Permit<T>>,
}

impl<T> Model for Hand<T> {
    ghost use Rattle.{std.specs.Prelude.{vec_len}, deques.specs.Deques.{HandView, hand_at, CanHold}};

    ghost Value = { HandView T };

    ghost view = { λ h. hand_at h.owner h.permits.items };

    ghost invariant = { λ h. CanHold h.place (vec_len h.permits) h.owner h.permits.items };
}

impl<T: Drop> Hand<T> {
    /// The hand of the worker whose deque has this place.
    pub(crate) fn new(place: usize, owner: Owner<T>, permits: Vec<Permit<T>>) -> Hand<T>
        requires { CanHold place (vec_len permits) owner permits.items }
        ensures { result ≡ hand_at owner permits.items }
    {
        Hand {
            place,
            owner,
            permits,
        }
    }

    /// An item from the front of another's deque: of the next one, and then round the circle. None where each was empty
    /// at one moment of the call.
    fn steal<R: Wait>(&mut self, rt: &R, fronts: &Vec<Front<T>>) -> Option<T>
        requires { fronts.now.items ≡ self.old.deques }
        ensures { MatchOption result (self.new ≡ self.old) (TookOne self.old self.new) }
    {
        let count = fronts.len();
        let mut at = self.place;
        for _ in 1..count {
            at = (at + 1) % count;
            if let Some(item) = fronts[at].steal(rt, &mut self.permits[at]) {
                return Some(item);
            }
        }
        None
    }

    /// An item of its own deque, or one that is stolen. None where its own was empty, and then each of the others, at
    /// one moment of the call.
    pub fn take<R: Wait>(&mut self, rt: &R, fronts: &Vec<Front<T>>) -> Option<T>
        requires { fronts.now.items ≡ self.old.deques }
        ensures { MatchOption result (self.new ≡ self.old) (TookOne self.old self.new) }
    {
        match self.owner.pop() {
            Some(item) => Some(item),
            None => self.steal(rt, fronts),
        }
    }
}
