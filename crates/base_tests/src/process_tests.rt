//! Processes, sets, keys, cells, actions and traces.
mod laws;

use crate::answers::{are_done, are_members};
use crate::comparisons::{NO_MEMORY, same};
use crate::inputs::{numbered, set_of};
use process_api::*;
use std::alloc::Global;
use std::process::Abort;

#[test]
fn processes_are_numbered_1_to_256(rt: HostRuntime) {
    for number in [0, 257, 1000, 65535] {
        same(&rt, &(number, Pid::new(number)), &(number, None));
    }
    for number in [1, 2, 64, 65, 255, 256] {
        let made = numbered(&rt, number);
        let came = (made.number(), Pid::after(number - 1));
        same(&rt, &came, &(number, made));
    }
}

/// Members come in rising order.
#[test]
fn sets_gain_and_lose_members(rt: HostRuntime) {
    let alloc = rt.alloc();
    let seven = set_of(&rt, &[256, 64, 1, 193, 33, 65, 2, 33]);
    are_members(&rt, alloc, 0, &seven, &[1, 2, 33, 64, 65, 193, 256]);
    let two = Pid::after(1);
    let five = Pid::after(4);
    let mut set = set_of(&rt, &[2, 5]);
    let kept = set.copy();
    same(&rt, &kept, &set);
    set.remove(two);
    let found = (set.contains(five), set.contains(two), kept == set);
    same(&rt, &found, &(true, false, false));
    set.insert(Pid::after(255));
    let both = kept.union(&set);
    let lens = (both.len(), both.up_to(5).len(), both.up_to(1).is_empty());
    same(&rt, &lens, &(3, 2, true));
    let gone = both.without(&set);
    same(&rt, &(gone.contains(two), gone.len()), &(true, 1));
}

#[test]
fn processes_64_apart_are_different_members(rt: HostRuntime) {
    let one = Pid::after(0);
    let mut set = set_of(&rt, &[65, 129, 193]);
    for &(most, members) in &[(64, 0), (65, 1), (192, 2), (65535, 3)] {
        let came = (set.contains(one), set.up_to(most).len());
        same(&rt, &came, &(false, members));
    }
    set.insert(one);
    set.remove(Pid::after(128));
    same(&rt, &(set.contains(one), set.len()), &(true, 3));
}

/// One word says a set, where no member is above 64.
#[test]
fn sets_up_to_64_are_words(rt: HostRuntime) {
    let rows: &[(&[u16], Option<u64>)] = &[
        (&[], Some(0)),
        (&[1], Some(1)),
        (&[64], Some(0x8000_0000_0000_0000)),
        (&[1, 6, 64], Some(0x8000_0000_0000_0021)),
        (&[65], None),
        (&[1, 129], None),
        (&[256], None),
    ];
    for (members, word) in rows {
        let came = (*members, set_of(&rt, members).to_word());
        same(&rt, &came, &(*members, *word));
        if let Some(word) = word {
            are_members(&rt, rt.alloc(), 0, &ProcSet::of_word(*word), members);
        }
    }
}

#[test]
fn keys_rise_by_tick_receiver_sender_and_number(rt: HostRuntime) {
    let one = Pid::after(0);
    let two = Pid::after(1);
    let rising = [
        (3, one, one, 9),
        (3, one, two, 1),
        (3, one, two, 2),
        (3, two, one, 1),
        (4, one, one, 0),
    ]
    .map(|(tick, receiver, sender, number)| Key {
        tick,
        receiver,
        sender,
        number,
    });
    for (place, earlier) in rising.iter().enumerate() {
        for (other, later) in rising.iter().enumerate() {
            let came = (place, other, earlier.is_before(later));
            same(&rt, &came, &(place, other, place < other));
        }
    }
}

/// Of three processes the second has a number.
#[test]
fn cells_are_copied(rt: HostRuntime) {
    let three = Cells::new(vec![in rt.alloc(); None, Some(20u32), None].expect(&rt, NO_MEMORY));
    let cells = three.copy().expect(&rt, NO_MEMORY);
    same(&rt, &cells, &three);
    let found = (cells.get(Pid::after(1)), cells.get(Pid::after(3)));
    same(&rt, &found, &(Some(20), None));
    same(&rt, &cells.into_vec().expect(&rt, NO_MEMORY).len(), &3);
}

#[test]
fn actions_are_appended(rt: HostRuntime) {
    let mut out = Vec::new(rt.alloc());
    send_to(&mut out, Pid::after(0), Payload::Alive).expect(&rt, NO_MEMORY);
    wake_after(&mut out, 7, Tag::Share).expect(&rt, NO_MEMORY);
    note_that(&mut out, Note::Round(1)).expect(&rt, NO_MEMORY);
    are_done(&rt, rt.alloc(), 0, &out, "alive>1 Share+7 round:1");
    same(&rt, &out.pop(), &Some(Action::Note(Note::Round(1))));
}

/// The trace of one start, with so many letters sent.
fn trace_of(rt: &impl Abort, alloc: Global, sent: u32) -> Trace {
    let one = Pid::after(0);
    let key = Key {
        tick: 0,
        receiver: one,
        sender: one,
        number: 0,
    };
    let entry = Entry {
        key,
        kind: Kind::Start,
        sent,
        lost: 0,
        notes: Vec::new(alloc),
    };
    Trace::new(vec![in alloc; entry].expect(rt, NO_MEMORY))
}

#[test]
fn a_trace_gives_its_entries(rt: HostRuntime) {
    let alloc = rt.alloc();
    let trace = trace_of(&rt, alloc, 2);
    same(&rt, &trace, &trace_of(&rt, alloc, 2));
    same(&rt, &(trace == trace_of(&rt, alloc, 3)), &false);
    same(&rt, &trace.entries().len(), &1);
    same(&rt, &trace.into_vec().len(), &1);
}
