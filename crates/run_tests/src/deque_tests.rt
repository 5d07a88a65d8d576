//! Deques from which two workers steal at once, and seven of which the farthest alone has an item.
ghost use Rattle.std.specs.{Prelude.{◌≡◌, ◌<◌, IfOk, IfSome}, List.{All}};

use crate::comparisons::{NO_MEMORY, same};
use deques::{Front, Hand, deal};
use std::alloc::{AllocError, Global};
use std::sync::Wait;
use std::sync::atomic::{AtomicU64, Ordering};
use std::thread;
use std::thread::Threads;

/// How many items three deques have together.
const ITEMS: u64 = 300_000;

/// The fronts of so many deques, among which the numbers below `items` are dealt, and their hands.
fn dealt(
    alloc: Global,
    count: usize,
    items: u64,
) -> Result<(Vec<Front<u64>>, Vec<Hand<u64>>), AllocError>
    requires { 0 < count }
    ensures { IfOk result (λ r. All (λ h. h.deques ≡ r.0.items) r.1.items) }
{
    let items: Vec<u64> = (0..items).collect(alloc)?;
    let (fronts, dealer) = deal(alloc, count, items)?;
    let hands = dealer.hands(alloc)?;
    Ok((fronts, hands))
}

/// Takes by a hand until it is told that nothing is left, and counts what it takes. Answers how many items all hands
/// had counted by then.
fn take_all<R: Wait>(
    rt: &R,
    mut hand: Hand<u64>,
    fronts: &Vec<Front<u64>>,
    counted: &AtomicU64,
) -> u64
    requires { hand.deques ≡ fronts.now.items }
{
    for _ in rt.forever() {
        let Some(_item) = hand.take(rt, fronts) else {
            break;
        };
        counted.fetch_add(1, Ordering::SeqCst);
    }
    counted.load(Ordering::SeqCst)
}

/// The last of these hands, if there is one.
fn last_of(hands: &mut Vec<Hand<u64>>, fronts: &Vec<Front<u64>>) -> Option<Hand<u64>>
    requires { All (λ h. h.deques ≡ fronts.now.items) hands.old.items }
    ensures last { IfSome result (λ h. h.deques ≡ fronts.now.items) }
    ensures others { All (λ h. h.deques ≡ fronts.now.items) hands.new.items }
{
    let _count = fronts.len();
    hands.pop()
}

/// Two hands take all, at once. Answers how many items both had counted as the one ended, and as the other did.
fn take_both<R: Threads + Wait + Sync>(
    rt: &R,
    fronts: &Vec<Front<u64>>,
    first: Hand<u64>,
    second: Hand<u64>,
) -> (u64, u64)
    requires first { first.deques ≡ fronts.now.items }
    requires second { second.deques ≡ fronts.now.items }
{
    let counted = AtomicU64::new(0);
    thread::join(
        rt,
        || take_all(rt, first, fronts, &counted),
        || take_all(rt, second, fronts, &counted),
    )
}

/// Two of three workers empty their own deques and then, both at once, that of the third. Each goes on until nothing is
/// left, however often the other was quicker: as it ends, all that was put in has been taken, and of that the other
/// has one item at most which it didn't count yet.
#[test]
fn two_thieves(rt: HostRuntime) {
    let (fronts, mut hands) = dealt(rt.alloc(), 3, ITEMS).expect(&rt, NO_MEMORY);
    let second = last_of(&mut hands, &fronts).expect(&rt, "no hand");
    let first = last_of(&mut hands, &fronts).expect(&rt, "no hand");
    let (first, second) = take_both(&rt, &fronts, first, second);
    assert!(rt; ITEMS - 1 <= first && ITEMS - 1 <= second);
    same(&rt, &first.max(second), &ITEMS);
}

/// The first hand of seven, each with an item in its own deque, where those between it and the last have taken theirs.
fn first_of_seven<R: Wait>(
    rt: &R,
    mut hands: Vec<Hand<u64>>,
    fronts: &Vec<Front<u64>>,
) -> Option<Hand<u64>>
    requires { All (λ h. h.deques ≡ fronts.now.items) hands.items }
    ensures { IfSome result (λ h. h.deques ≡ fronts.now.items) }
{
    let _seventh = last_of(&mut hands, fronts);
    for _ in 0..5 {
        let Some(mut hand) = last_of(&mut hands, fronts) else {
            break;
        };
        let _own = hand.take(rt, fronts);
    }
    last_of(&mut hands, fronts)
}

/// A worker looks at each other deque before it ends: the first of seven takes what the last one has, which is the
/// farthest round the circle.
#[test]
fn farthest_of_seven(rt: HostRuntime) {
    let (fronts, hands) = dealt(rt.alloc(), 7, 7).expect(&rt, NO_MEMORY);
    let first = first_of_seven(&rt, hands, &fronts);
    let mut first = first.expect(&rt, "no hand");
    let own = first.take(&rt, &fronts);
    let farthest = first.take(&rt, &fronts);
    let none = first.take(&rt, &fronts);
    same(&rt, &(own, farthest, none), &(Some(0), Some(6), None));
}
