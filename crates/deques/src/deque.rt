//! One deque: its owner's end, the front at which any worker may steal, and the permits by which it does.
ghost use Rattle.std.specs.{Prelude.{◌≡◌, ◌⊎◌, ◌<◌, [], ◌∷◌, ◌++◌, IfOk, OnOk, OnErr, Some, None, MatchOption}, List.Sorted.{IsPermutation}};
ghost use Rattle.crossbeam_deque.specs.Steals.{MatchSteal};
ghost use Rattle.deques.specs.Deques.{owner_of, one_out, blank, one_back, Popped, Stole};

use crate::rule::{EachOnce, Pop, Push, Steals};
use crossbeam_deque::{Pass, Steal, Stealer, Worker};
use ledger::{Account, Telling, Ticketing};
use std::alloc::{AllocError, Global};
use std::marker::Model;
use std::sync::Wait;
use std::thread;

type Deque<T> = Worker<T, Global, Account<T>, EachOnce>;

type DequePass<T> = Pass<T, Account<T>>;

/// The owner's end of a deque. Contracts see which deque it is, how many permits to steal from it are out, what was put
/// in, and what was taken by the owner and by the permits that are back.
#[derive(Drop)]
pub(crate) struct Owner<T> {
    deque: Deque<T>,
}

impl<T> Model for Owner<T> {
    ghost use Rattle.std.specs.Prelude.{◌≡◌, ◌≢◌, ◌≤◌, ◌-◌};
    ghost use Rattle.crossbeam_deque.specs.Handles.{worker_deque, worker_flavor, worker_port, worker_view};
    ghost use Rattle.deques.specs.Deques.{OwnerView, owner_of};

    ghost Value = { OwnerView T };

    ghost view = { λ o. owner_of (worker_deque o.deque) ((worker_view o.deque).made - (worker_view o.deque).parts)
        (worker_view o.deque).put (worker_view o.deque).taken (worker_view o.deque).told };

    ghost invariant = { λ o. (worker_flavor o.deque ≡ 0) × (worker_port o.deque ≡ 0)
        × ((worker_view o.deque).parts ≢ 0) × ((worker_view o.deque).parts ≤ (worker_view o.deque).made) };
}

/// A permit to steal from one deque. Contracts see which deque it is, what was put into it, and what was stolen by this
/// permit.
#[derive(Drop)]
pub(crate) struct Permit<T> {
    pass: DequePass<T>,
}

impl<T> Model for Permit<T> {
    ghost use Rattle.std.specs.Prelude.{◌≡◌, None, Some};
    ghost use Rattle.crossbeam_deque.specs.Handles as handles;
    ghost use Rattle.{ledger.specs.Ledger.{has_taken, new_pass, told_in}, deques.specs.Deques.{PermitView, permit_of}};

    ghost Value = { PermitView T };

    ghost view = { λ p. permit_of (p.pass.rows, p.pass.heap)
        (told_in (handles.view p.pass).told) (handles.view p.pass).taken };

    ghost invariant = { λ p. (p.pass.me.hand ≡ None) × (p.pass.me.spare ≡ None) × (handles.view p.pass
        ≡ has_taken (new_pass (Some (told_in (handles.view p.pass).told))) (handles.view p.pass).taken) };
}

/// The front of a deque, which threads share. Contracts see which deque it is.
#[derive(Drop)]
pub struct Front<T> {
    stealer: Stealer<T, Global, Account<T>, EachOnce>,
}

impl<T> Model for Front<T> {
    ghost use Rattle.std.specs.Prelude.{◌≡◌};
    ghost use Rattle.{crossbeam_deque.specs.Handles.{stealer_deque, stealer_flavor}, deques.specs.Deques.{DequeId}};

    ghost Value = { DequeId };

    ghost view = { λ f. stealer_deque f.stealer };

    ghost invariant = { λ f. stealer_flavor f.stealer ≡ 0 };
}

impl<T: Drop> Owner<T> {
    /// An empty deque that begins with so much room.
    pub(crate) fn open(alloc: Global, room: usize) -> Result<Owner<T>, AllocError>
        ensures { IfOk result (λ o. o ≡ owner_of o.deque 0 [] [] None) }
    {
        let deque = Deque::fifo_as(alloc, room)?;
        Ok(Owner { deque })
    }

    /// The front of this deque.
    pub(crate) fn front(&self) -> Result<Front<T>, AllocError>
        ensures { IfOk result (λ f. f ≡ self.now.deque) }
    {
        let stealer = self.deque.stealer()?;
        Ok(Front { stealer })
    }

    /// Puts an item in at the back, before anybody was told what was put in.
    pub(crate) fn put(&mut self, item: T) -> Result<(), AllocError>
        requires { self.old.told ≡ None }
        ensures ok { OnOk result (self.new
            ≡ owner_of self.old.deque self.old.out (self.old.put ++ item ∷ []) self.old.taken None) }
        ensures err { OnErr result (self.new ≡ self.old) }
    {
        if self.deque.push_as::<Push>(item).is_err() {
            return Err(AllocError);
        }
        Ok(())
    }

    /// One more permit to steal, which tells what was put in. From now on nothing is put in.
    pub(crate) fn permit(&mut self) -> Permit<T>
        requires { (self.old.out ≡ 0) ⊎ (self.old.told ≡ Some self.old.put) }
        ensures owner { self.new ≡ one_out self.old }
        ensures permit { result ≡ blank self.old }
    {
        let pass = self.deque.another::<Telling>();
        Permit { pass }
    }

    /// The item at the front, or none where the deque was empty at one moment of the call; then, if no permit is out,
    /// all that was put in was taken.
    pub(crate) fn pop(&mut self) -> Option<T>
        ensures { MatchOption result
            ((self.new ≡ self.old) × (self.old.out ≡ 0 → IsPermutation self.old.put self.old.taken))
            (Popped self.old self.new) }
    {
        self.deque.pop_as::<Pop>()
    }

    /// Takes a permit back.
    pub(crate) fn take_back(&mut self, permit: Permit<T>)
        requires deque { permit.deque ≡ self.old.deque }
        requires out { 0 < self.old.out }
        ensures { self.new ≡ one_back self.old permit.taken }
    {
        let Permit { pass } = permit;
        self.deque.absorb::<Ticketing>(pass);
    }
}

impl<T: Drop> Front<T> {
    /// One attempt to steal the item at the front.
    fn attempt(&self, permit: &mut Permit<T>) -> Steal<T>
        requires { permit.old.deque ≡ self.now }
        ensures { MatchSteal result (permit.new ≡ permit.old) (permit.new ≡ permit.old) (Stole permit.old permit.new) }
    {
        self.stealer.steal_as::<Steals>(&mut permit.pass)
    }

    /// The item at the front, or none where the deque was empty at one moment of the call. It tries again where another
    /// was quicker.
    pub(crate) fn steal<R: Wait>(&self, rt: &R, permit: &mut Permit<T>) -> Option<T>
        requires { permit.old.deque ≡ self.now }
        ensures { MatchOption result (permit.new ≡ permit.old) (Stole permit.old permit.new) }
    {
        for _ in rt.forever() {
            match self.attempt(permit) {
                Steal::Success(item) => return Some(item),
                Steal::Empty => return None,
                Steal::Retry => thread::yield_now(),
            }
        }
        unreachable!()
    }
}
