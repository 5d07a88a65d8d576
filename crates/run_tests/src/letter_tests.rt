//! The table of letters.
use crate::comparisons::{NO_MEMORY, is_made_of};
use crate::traces::pid;
use process_api::Kind;
use reporting::{Letter, LetterFate, letters_text};
use std::alloc::Global;
use std::process::Abort;

/// The kinds of letters, and their names.
const KINDS: &[(Kind, &str)] = &[
    (Kind::Alive, "alive"),
    (Kind::Heartbeat, "heartbeat"),
    (Kind::Suspects, "suspects"),
    (Kind::Vector, "vector"),
    (Kind::Last, "last"),
    (Kind::Estimate, "estimate"),
    (Kind::Proposal, "proposal"),
    (Kind::Reply, "reply"),
    (Kind::Decide, "decide"),
];

/// A letter from process 3 to process 256.
fn letter(rt: &impl Abort, kind: Kind, due: Option<u64>, fate: LetterFate) -> Letter {
    Letter {
        sent: 4_294_967_295,
        sender: pid(rt, 3),
        receiver: pid(rt, 256),
        number: 1_000_000_000_000,
        kind,
        due,
        fate,
    }
}

/// The text of these letters is the header and these lines.
fn have_lines(rt: &impl Abort, alloc: Global, letters: &[Letter], lines: &str) {
    let text = letters_text(alloc, letters).expect(rt, NO_MEMORY);
    is_made_of(
        rt,
        &text,
        &["sent,sender,receiver,number,kind,due,fate\n", lines],
    );
}

/// A row of each fate but that of a lost letter.
const FATES: &str = "4294967295,3,256,1000000000000,alive,0,taken
4294967295,3,256,1000000000000,reply,5000000000,late
4294967295,3,256,1000000000000,last,7,dead
";

/// The header alone, a letter of each kind, and one of each fate.
#[test]
fn texts(rt: HostRuntime) {
    let alloc = rt.alloc();
    have_lines(&rt, alloc, &[], "");
    for &(kind, name) in KINDS {
        let lost = letter(&rt, kind, None, LetterFate::Lost);
        let line = format!(in alloc; "4294967295,3,256,1000000000000,{name},,lost\n");
        have_lines(&rt, alloc, &[lost], &line.expect(&rt, NO_MEMORY));
    }
    let rows = [
        letter(&rt, Kind::Alive, Some(0), LetterFate::Taken),
        letter(&rt, Kind::Reply, Some(5_000_000_000), LetterFate::Late),
        letter(&rt, Kind::Last, Some(7), LetterFate::Dead),
    ];
    have_lines(&rt, alloc, &rows, FATES);
}
