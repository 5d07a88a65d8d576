//! The set of pending events, once with ample memory.
use crate::common::{own_key, pid};
use crate::comparisons::{NO_MEMORY, same};
use event_list::{Event, Pending};
use process_api::{StepInput, Tag};
use std::process::Abort;

/// Why a test stops where it wanted one event more.
const TOO_FEW: &str = "too few events";

/// Takes the least event, if there is one. Answers its tick, its receiver, its number and the input.
fn take<R: Abort>(rt: &R, pending: &mut Pending) -> Option<(u32, u16, u64, StepInput)> {
    let (key, input) = pending.take_least().expect(rt, NO_MEMORY)?;
    Some((key.tick, key.receiver.number(), key.number, input))
}

/// The least events are those of these ticks, receivers and numbers, and are taken.
fn are_taken<R: Abort>(rt: &R, pending: &mut Pending, wanted: &[(u32, u16, u64)]) {
    for wanted in wanted {
        let (tick, receiver, number, _) = take(rt, pending).expect(rt, TOO_FEW);
        same(rt, &(tick, receiver, number), wanted);
    }
}

#[test]
fn takes_least_first(rt: HostRuntime) {
    let mut pending = Pending::new(rt.alloc()).expect(&rt, NO_MEMORY);
    let check = Event::wake(own_key(3, pid(1), 2), Tag::Check);
    for event in [check, Event::start(pid(2)), Event::start(pid(1))] {
        pending.join(event).expect(&rt, NO_MEMORY);
    }
    are_taken(&rt, &mut pending, &[(0, 1, 0), (0, 2, 0), (3, 1, 2)]);
    assert!(rt; take(&rt, &mut pending).is_none());
}

/// Many events of one tick, of which each receiver has several.
#[test]
fn takes_many_in_order(rt: HostRuntime) {
    let mut pending = Pending::new(rt.alloc()).expect(&rt, NO_MEMORY);
    for place in 0..30u64 {
        // receivers in turn, with numbers that don't rise
        let receiver = place as u16 % 5 + 1;
        let key = own_key(7, pid(receiver), place * 7 % 30);
        let joined = pending.join(Event::wake(key, Tag::Beat));
        joined.expect(&rt, NO_MEMORY);
    }
    let mut last = (0u16, 0u64);
    for _place in 0..30 {
        let (_, receiver, number, _) = take(&rt, &mut pending).expect(&rt, TOO_FEW);
        assert!(rt; last < (receiver, number));
        last = (receiver, number);
    }
    assert!(rt; take(&rt, &mut pending).is_none());
}

/// Events of process 1 with these ticks and numbers join.
fn join_all<R: Abort>(rt: &R, pending: &mut Pending, events: &[(u32, u64)], tag: Tag) {
    for (tick, number) in events {
        let key = own_key(*tick, pid(1), *number);
        let joined = pending.join(Event::wake(key, tag));
        joined.expect(rt, NO_MEMORY);
    }
}

/// Events of ticks with one place in the ring, and before and past what the ring has.
#[test]
fn takes_ticks_in_order(rt: HostRuntime) {
    let mut pending = Pending::new(rt.alloc()).expect(&rt, NO_MEMORY);
    // 5, 1029, 2053 and 5125 leave the rest 5 by 1024
    let beats = [(5125, 0), (5, 0), (2053, 0), (1029, 0), (u32::MAX, 0)];
    join_all(&rt, &mut pending, &beats, Tag::Beat);
    are_taken(&rt, &mut pending, &[(5, 1, 0)]);
    // now 1028 is in the year that begins at 5, and 1029, which lies in the map, is not
    let checks = [(1028, 0), (1029, 1), (3, 0), (6, 0)];
    join_all(&rt, &mut pending, &checks, Tag::Check);
    are_taken(&rt, &mut pending, &[(3, 1, 0), (6, 1, 0), (1028, 1, 0)]);
    // 1029 has events in the map, and a third comes to the ring; of the two with one key the later counts
    join_all(&rt, &mut pending, &[(1029, 0)], Tag::Check);
    let (tick, _, number, input) = take(&rt, &mut pending).expect(&rt, TOO_FEW);
    same(&rt, &(tick, number), &(1029, 0));
    assert!(rt; matches!(input, StepInput::Wake(Tag::Check)));
    let last = [(1029, 1, 1), (2053, 1, 0), (5125, 1, 0), (u32::MAX, 1, 0)];
    are_taken(&rt, &mut pending, &last);
    assert!(rt; take(&rt, &mut pending).is_none());
}
