//! The starter's side of the deques: it deals the items out before the workers begin, and has what is left once they
//! have ended.
ghost use Rattle.std.specs.{Prelude.{◌≡◌, ◌⊎◌, ◌<◌, ◌++◌, [], length, map, IfOk, OnOk, vec_len, MatchOption, Some, None}, List.{All, flat_map, Sorted.{IsPermutation}}};
ghost use Rattle.ledger.specs.Ledger.{each_with};
ghost use Rattle.deques.specs.Deques.{deques_of, dealt_of, all_put, one_out, many_out, blank, one_back, MayTell, HasTold, AreBlank, with_item, stolen_by, taken_by, AreShares, IsDealt, CameBack, TookLast};

use crate::deque::{Front, Owner, Permit};
use crate::hand::Hand;
use std::alloc::{AllocError, Global};
use std::marker::Model;

/// The deques before the workers begin. Contracts see which they are, and what was put into each.
#[derive(Drop)]
pub struct Dealer<T> {
    owners: Vec<Owner<T>>,
}

impl<T> Model for Dealer<T> {
    ghost use Rattle.std.specs.{Prelude.{◌≡◌, List, [], map, None}, List.{All}};
    ghost use Rattle.deques.specs.Deques.{Dealt, dealt_of};

    ghost Value = { List (Dealt T) };

    ghost view = { λ d. map dealt_of d.owners.items };

    ghost invariant = { λ d. All (λ o. (o.out ≡ 0) × (o.taken ≡ []) × (o.told ≡ None)) d.owners.items };
}

/// The deques after the workers have ended. Contracts see which they are and what was put into each, how many workers'
/// permits are out, and what was taken by those that are back.
#[derive(Drop)]
pub struct Rest<T> {
    owners: Vec<Owner<T>>,
    out: usize,
}

impl<T> Model for Rest<T> {
    ghost use Rattle.std.specs.{Prelude.{◌≡◌, map, Some}, List.{All, flat_map}};
    ghost use Rattle.deques.specs.Deques.{RestView, rest_of, dealt_of};

    ghost Value = { RestView T };

    ghost view = { λ r. rest_of (map dealt_of r.owners.items) r.out (flat_map (λ o. o.taken) r.owners.items) };

    ghost invariant = { λ r. All (λ o. (o.out ≡ r.out) × (o.told ≡ Some o.put)) r.owners.items };
}

/// A permit for each deque.
fn permits_of<T: Drop>(
    alloc: Global,
    owners: &mut Vec<Owner<T>>,
) -> Result<Vec<Permit<T>>, AllocError>
    requires { All MayTell owners.old.items }
    ensures owners { OnOk result (owners.new.items ≡ map one_out owners.old.items) }
    ensures permits { IfOk result (λ permits. permits.items ≡ map blank owners.old.items) }
{
    let mut permits = Vec::with_capacity(alloc, owners.len())?;
    for at in 0..owners.len() {
        let permit = owners[at].permit();
        permits.push_reserved(permit);
    }
    Ok(permits)
}

/// Permits for each deque, as many as there are deques.
fn all_permits<T: Drop>(
    alloc: Global,
    owners: &mut Vec<Owner<T>>,
) -> Result<Vec<Vec<Permit<T>>>, AllocError>
    requires { All (λ o. (o.out ≡ 0) × (o.told ≡ None)) owners.old.items }
    ensures owners { OnOk result (owners.new.items ≡ map (many_out (vec_len owners.old)) owners.old.items) }
    ensures count { IfOk result (λ lists. vec_len lists ≡ vec_len owners.old) }
    ensures permits { IfOk result (λ lists. All (λ l. l.items ≡ map blank owners.old.items) lists.items) }
{
    let mut lists = Vec::with_capacity(alloc, owners.len())?;
    for _ in 0..owners.len() {
        lists.push_reserved(permits_of(alloc, owners)?);
    }
    Ok(lists)
}

/// A hand of each deque with its list of permits.
fn hands_of<T: Drop>(
    alloc: Global,
    owners: Vec<Owner<T>>,
    lists: Vec<Vec<Permit<T>>>,
) -> Result<Vec<Hand<T>>, AllocError>
    requires count { vec_len lists ≡ vec_len owners }
    requires owners { All (HasTold (vec_len owners) (map dealt_of owners.items)) owners.items }
    requires lists { All (λ l. AreBlank (vec_len owners) (map dealt_of owners.items) l.items) lists.items }
    ensures own { IfOk result (λ hands. map (λ h. h.own) hands.items ≡ map dealt_of owners.items) }
    ensures hands { IfOk result (λ hands. All (IsDealt (map dealt_of owners.items)) hands.items) }
{
    let mut hands = Vec::with_capacity(alloc, owners.len())?;
    let mut lists = lists.into_iter();
    let mut place = 0;
    for owner in owners {
        let Some(permits) = lists.next() else {
            unreachable!()
        };
        hands.push_reserved(Hand::new(place, owner, permits));
        place += 1;
    }
    Ok(hands)
}

impl<T: Drop> Dealer<T> {
    /// So many empty deques, which begin with so much room each, and their fronts.
    pub(crate) fn open(
        alloc: Global,
        count: usize,
        room: usize,
    ) -> Result<(Vec<Front<T>>, Dealer<T>), AllocError>
        ensures fronts { IfOk result (λ made. made.0.items ≡ deques_of made.1) }
        ensures count { IfOk result (λ made. length made.1 ≡ count) }
        ensures none { IfOk result (λ made. All (λ d. d.1 ≡ []) made.1) }
    {
        let mut fronts = Vec::with_capacity(alloc, count)?;
        let mut owners = Vec::with_capacity(alloc, count)?;
        for _ in 0..count {
            let owner = Owner::open(alloc, room)?;
            fronts.push_reserved(owner.front()?);
            owners.push_reserved(owner);
        }
        Ok((fronts, Dealer { owners }))
    }

    /// Puts an item into the deque at this place.
    pub(crate) fn put(&mut self, at: usize, item: T) -> Result<(), AllocError>
        requires { at < length self.old }
        ensures { OnOk result (self.new ≡ with_item self.old at item) }
    {
        self.owners[at].put(item)
    }

    /// The workers' hands, in the order of the deques: each has a deque, and a permit for every one.
    pub fn hands(self, alloc: Global) -> Result<Vec<Hand<T>>, AllocError>
        ensures own { IfOk result (λ hands. map (λ h. h.own) hands.items ≡ self) }
        ensures hands { IfOk result (λ hands. All (IsDealt self) hands.items) }
    {
        let Dealer { mut owners } = self;
        let lists = all_permits(alloc, &mut owners)?;
        hands_of(alloc, owners, lists)
    }
}

/// Deals the items, one after the other, to so many deques in turn.
pub fn deal<T: Drop>(
    alloc: Global,
    count: usize,
    items: Vec<T>,
) -> Result<(Vec<Front<T>>, Dealer<T>), AllocError>
    requires { (0 < count) ⊎ (vec_len items ≡ 0) }
    ensures fronts { IfOk result (λ made. made.0.items ≡ deques_of made.1) }
    ensures count { IfOk result (λ made. length made.1 ≡ count) }
    ensures shares { IfOk result (λ made. AreShares count items.items (map (λ d. d.1) made.1)) }
    ensures all { IfOk result (λ made. IsPermutation items.items (all_put made.1)) }
{
    let room = items.len() / count.max(1) + 1;
    let (fronts, mut dealer) = Dealer::open(alloc, count, room)?;
    let mut dealt = 0;
    for item in items {
        dealer.put(dealt % count, item)?;
        dealt += 1;
    }
    Ok((fronts, dealer))
}

/// Takes a worker's permits back, one for each deque.
fn take_all_back<T: Drop>(owners: &mut Vec<Owner<T>>, permits: Vec<Permit<T>>)
    requires deques { map (λ p. p.deque) permits.items ≡ map (λ o. o.deque) owners.old.items }
    requires out { All (λ o. 0 < o.out) owners.old.items }
    ensures { owners.new.items ≡ each_with one_back owners.old.items (map (λ p. p.taken) permits.items) }
{
    let mut at = 0;
    for permit in permits {
        owners[at].take_back(permit);
        at += 1;
    }
}

/// The hands' deques, and their lists of permits.
fn apart<T: Drop>(
    alloc: Global,
    hands: Vec<Hand<T>>,
) -> Result<(Vec<Owner<T>>, Vec<Vec<Permit<T>>>), AllocError>
    requires { All (λ h. h.deques ≡ deques_of (map (λ x. x.own) hands.items)) hands.items }
    ensures own { IfOk result (λ r. map dealt_of r.0.items ≡ map (λ h. h.own) hands.items) }
    ensures owners { IfOk result (λ r. All (λ o. (o.out ≡ vec_len hands) × (o.told ≡ Some o.put)) r.0.items) }
    ensures count { IfOk result (λ r. vec_len r.1 ≡ vec_len hands) }
    ensures deques { IfOk result (λ r.
        All (λ l. map (λ p. p.deque) l.items ≡ deques_of (map (λ h. h.own) hands.items)) r.1.items) }
    ensures taken { IfOk result (λ r. IsPermutation (taken_by hands.items)
        (flat_map (λ o. o.taken) r.0.items ++ flat_map (λ l. stolen_by l.items) r.1.items)) }
{
    let mut owners = Vec::with_capacity(alloc, hands.len())?;
    let mut lists = Vec::with_capacity(alloc, hands.len())?;
    for hand in hands {
        let Hand { owner, permits, .. } = hand;
        owners.push_reserved(owner);
        lists.push_reserved(permits);
    }
    Ok((owners, lists))
}

impl<T: Drop> Rest<T> {
    /// Takes a worker's permits back.
    fn take_back(&mut self, permits: Vec<Permit<T>>)
        requires deques { map (λ p. p.deque) permits.items ≡ deques_of self.old.own }
        requires out { 0 < self.old.out }
        ensures { CameBack self.old self.new (stolen_by permits.items) }
    {
        take_all_back(&mut self.owners, permits);
        self.out -= 1;
    }

    /// What is left where these hands come back, which are all.
    pub fn of_hands(alloc: Global, hands: Vec<Hand<T>>) -> Result<Rest<T>, AllocError>
        requires { All (λ h. h.deques ≡ deques_of (map (λ x. x.own) hands.items)) hands.items }
        ensures own { IfOk result (λ rest. rest.own ≡ map (λ h. h.own) hands.items) }
        ensures out { IfOk result (λ rest. rest.out ≡ 0) }
        ensures taken { IfOk result (λ rest. IsPermutation (taken_by hands.items) rest.taken) }
    {
        let out = hands.len();
        let (owners, lists) = apart(alloc, hands)?;
        let mut rest = Rest { owners, out };
        for permits in lists {
            rest.take_back(permits);
        }
        Ok(rest)
    }

    /// An item that is left, once all permits are back. Where there is none, all that was put in was taken.
    pub fn take_last(&mut self) -> Option<T>
        requires { self.old.out ≡ 0 }
        ensures { MatchOption result ((self.new ≡ self.old) × IsPermutation (all_put self.old.own) self.old.taken)
            (TookLast self.old self.new) }
    {
        for at in 0..self.owners.len() {
            if let Some(item) = self.owners[at].pop() {
                return Some(item);
            }
        }
        None
    }
}
