//! Letters that are posted by slips and come out of mailboxes: none, some, by one thread and by several.
ghost use Rattle.std.specs.Prelude.{◌≡◌, ◌≤◌, length};
ghost use Rattle.{process_api.specs.Place.{most_processes}, mailboxes.specs.Mailboxes.{IsSlipOf}};

use crate::common::pid;
use crate::comparisons::{NO_MEMORY, same};
use mailboxes::{Inbox, Mailboxes, SharedMailboxes, Slip};
use process_api::{Key, Letter, Payload, Pid};
use std::alloc::{AllocError, Global};
use std::process::Abort;
use std::sync::Wait;
use std::thread::join_mut;
use trace_laws::Parcel;

/// A letter of process 1 with this number.
fn letter(receiver: Pid, number: u64) -> Letter
    ensures { result.key.receiver ≡ receiver }
{
    let key = Key {
        tick: 7,
        receiver,
        sender: pid(1),
        number,
    };
    let payload = Payload::Alive;
    Letter { key, payload }
}

/// Posts a letter with this number to a receiver.
fn post<R: Abort + Wait>(rt: &R, mailboxes: &Mailboxes, slip: &mut Slip, receiver: u16, number: u64)
    requires slip { IsSlipOf mailboxes.now.mailboxes slip.old }
    requires low { 1 ≤ receiver }
    requires high { receiver ≤ most_processes }
    requires boxes { receiver ≤ length mailboxes.now.mailboxes }
    ensures { IsSlipOf mailboxes.now.mailboxes slip.new }
{
    let posted = mailboxes.post(rt, slip, letter(pid(receiver), number));
    assert!(rt; posted.is_ok());
}

/// The numbers of a list's letters, least first.
fn numbers(alloc: Global, letters: &Vec<Letter>) -> Result<Vec<u64>, AllocError> {
    let mut numbers = Vec::new(alloc);
    for letter in letters {
        numbers.push(letter.key.number)?;
    }
    numbers.sort()?;
    Ok(numbers)
}

/// There is a list for each of these receivers, and its letters have the numbers that are wanted.
fn have_numbers<R: Abort>(rt: &R, alloc: Global, lists: &[Vec<Letter>], wanted: &[&[u64]]) {
    same(rt, &lists.len(), &wanted.len());
    for (list, wanted) in lists.iter().zip(wanted) {
        let came = numbers(alloc, list).expect(rt, NO_MEMORY);
        same(rt, &came.as_slice(), wanted);
    }
}

/// The letters of two slips come to their receivers, and one that is posted twice comes twice.
#[test]
fn letters_of_slips(rt: HostRuntime) {
    let alloc = rt.alloc();
    let mut mailboxes = Mailboxes::new(alloc, 3).expect(&rt, NO_MEMORY);
    let mut first = mailboxes.slip(alloc).expect(&rt, NO_MEMORY);
    let mut second = mailboxes.slip(alloc).expect(&rt, NO_MEMORY);
    post(&rt, &mailboxes, &mut first, 2, 1);
    post(&rt, &mailboxes, &mut first, 3, 2);
    post(&rt, &mailboxes, &mut second, 2, 3);
    let slips = vec![in alloc; first, second].expect(&rt, NO_MEMORY);
    let lists = mailboxes.collect(&rt, alloc, slips);
    let lists = lists.expect(&rt, NO_MEMORY);
    have_numbers(&rt, alloc, &lists, &[&[], &[1, 3], &[2]]);
    let mut mailboxes = Mailboxes::new(alloc, 3).expect(&rt, NO_MEMORY);
    let mut slip = mailboxes.slip(alloc).expect(&rt, NO_MEMORY);
    post(&rt, &mailboxes, &mut slip, 2, 1);
    post(&rt, &mailboxes, &mut slip, 2, 1);
    let slips = vec![in alloc; slip].expect(&rt, NO_MEMORY);
    let lists = mailboxes.collect(&rt, alloc, slips);
    let lists = lists.expect(&rt, NO_MEMORY);
    have_numbers(&rt, alloc, &lists, &[&[], &[1, 1], &[]]);
}

/// An inbox has letters with these numbers, of tick 7, and once it was emptied has none.
fn has_numbers<R: Abort + Wait>(rt: &R, alloc: Global, inbox: Inbox, wanted: &[u64]) {
    let tick = if wanted.is_empty() { None } else { Some(7) };
    same(rt, &inbox.soonest(), &tick);
    let mut letters = Vec::new(alloc);
    let inbox = inbox.empty(rt, &mut letters).expect(rt, NO_MEMORY);
    same(rt, &inbox.soonest(), &None);
    let came = numbers(alloc, &letters).expect(rt, NO_MEMORY);
    same(rt, &came.as_slice(), &wanted);
}

/// Each receiver's inbox has its letters, and the least tick of these.
#[test]
fn inboxes_of_slips(rt: HostRuntime) {
    let alloc = rt.alloc();
    let mut mailboxes = Mailboxes::new(alloc, 3).expect(&rt, NO_MEMORY);
    let mut first = mailboxes.slip(alloc).expect(&rt, NO_MEMORY);
    let mut second = mailboxes.slip(alloc).expect(&rt, NO_MEMORY);
    post(&rt, &mailboxes, &mut first, 2, 1);
    post(&rt, &mailboxes, &mut second, 3, 2);
    post(&rt, &mailboxes, &mut second, 2, 3);
    let slips = vec![in alloc; first, second].expect(&rt, NO_MEMORY);
    let inboxes = mailboxes.into_inboxes(alloc, slips);
    let mut inboxes = inboxes.expect(&rt, NO_MEMORY);
    for wanted in [[2].as_slice(), [1, 3].as_slice(), [].as_slice()] {
        let inbox = inboxes.pop();
        has_numbers(
            &rt,
            alloc,
            inbox.expect(&rt, "there are three inboxes"),
            wanted,
        );
    }
}

#[test]
fn no_slip_no_letter(rt: HostRuntime) {
    let alloc = rt.alloc();
    for n in [0, 1, 256] {
        let mailboxes = Mailboxes::new(alloc, n).expect(&rt, NO_MEMORY);
        let lists = mailboxes.collect(&rt, alloc, Vec::new(alloc));
        let lists = lists.expect(&rt, NO_MEMORY);
        same(&rt, &lists.len(), &usize::from(n));
        for list in &lists {
            assert!(rt; list.is_empty());
        }
    }
}

/// A parcel with the letter of this number.
fn parcel<R: Abort>(rt: &R, alloc: Global, receiver: Pid, number: u64) -> Parcel
    ensures { result.key.receiver ≡ receiver }
{
    match Parcel::pack(alloc, letter(receiver, number)) {
        Ok(parcel) => parcel,
        Err(_) => panic!(rt; "memory was refused"),
    }
}

/// Posts letters with 1,000 numbers from `first` to this receiver, each by itself.
fn post_many<R: Abort + Wait>(
    rt: &R,
    alloc: Global,
    mailboxes: &SharedMailboxes,
    slip: &mut Slip,
    receiver: Pid,
    first: u64,
)
    requires slip { IsSlipOf mailboxes.now slip.old }
    requires receiver { receiver ≤ length mailboxes.now }
    requires first { first ≤ 1000000 }
    ensures slip { IsSlipOf mailboxes.now slip.new }
{
    for number in first..first + 1000 {
        let posted = mailboxes.post(rt, slip, parcel(rt, alloc, receiver, number));
        assert!(rt; posted.is_ok());
    }
}

/// The same by a tray.
fn post_together<R: Abort + Wait>(
    rt: &R,
    alloc: Global,
    mailboxes: &SharedMailboxes,
    slip: &mut Slip,
    receiver: Pid,
    first: u64,
)
    requires slip { IsSlipOf mailboxes.now slip.old }
    requires receiver { receiver ≤ length mailboxes.now }
    requires first { first ≤ 1000000 }
    ensures slip { IsSlipOf mailboxes.now slip.new }
{
    let mut tray = slip.tray().expect(rt, NO_MEMORY);
    for number in first..first + 1000 {
        let filed = tray.put(parcel(rt, alloc, receiver, number));
        filed.expect(rt, NO_MEMORY);
    }
    let posted = mailboxes.post_all(rt, slip, &mut tray, 0);
    posted.expect(rt, NO_MEMORY);
}

#[test]
fn two_threads_post_to_one_receiver(rt: HostRuntime) {
    let alloc = rt.alloc();
    let two = pid(2);
    let mut mailboxes = Mailboxes::new(alloc, 3).expect(&rt, NO_MEMORY);
    let mut first = mailboxes.slip(alloc).expect(&rt, NO_MEMORY);
    let mut second = mailboxes.slip(alloc).expect(&rt, NO_MEMORY);
    let shared = mailboxes.shared();
    join_mut(
        &rt,
        &mut || post_many(&rt, alloc, shared, &mut first, two, 1),
        &mut || post_together(&rt, alloc, shared, &mut second, two, 1001),
    );
    let slips = vec![in alloc; first, second].expect(&rt, NO_MEMORY);
    let lists = mailboxes.collect(&rt, alloc, slips);
    let lists = lists.expect(&rt, NO_MEMORY);
    let came = numbers(alloc, &lists[1]).expect(&rt, NO_MEMORY);
    assert!(rt; came.iter().copied().eq(1..=2000));
}
