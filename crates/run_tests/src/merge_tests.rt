//! The example of the page of the crate `trace_merge`, and parts that are merged in pieces.
ghost use Rattle.std.specs.Prelude.{◌≡◌, ◌≢◌, ◌∷◌, [], IfOk, IsTrue, map};
ghost use Rattle.{process_api.specs.Order.{is_rising}, trace_merge.specs.Parts.{AreDisjoint}};

use crate::common::{own_key, pid};
use crate::comparisons::{NO_MEMORY, same};
use process_api::{Entry, Key, Kind};
use std::alloc::Global;
use trace_merge::{Merging, merge};

/// An entry with this key, which notes nothing.
fn entry(alloc: Global, key: Key) -> Entry
    ensures { result.key ≡ key }
{
    Entry {
        key,
        kind: Kind::Start,
        sent: 0,
        lost: 0,
        notes: Vec::new(alloc),
    }
}

#[test]
fn three_parts(rt: HostRuntime) {
    let alloc = rt.alloc();
    let keys = [
        own_key(0, pid(1), 0),
        own_key(0, pid(2), 0),
        own_key(3, pid(1), 2),
    ];
    let first = vec![in alloc; entry(alloc, keys[0]), entry(alloc, keys[2])];
    let last = vec![in alloc; entry(alloc, keys[1])];
    let (first, last) = (first.expect(&rt, NO_MEMORY), last.expect(&rt, NO_MEMORY));
    let parts = vec![in alloc; first, Vec::new(alloc), last];
    let merged = merge(alloc, parts.expect(&rt, NO_MEMORY));
    let merged = merged.expect(&rt, NO_MEMORY);
    same(&rt, &merged.len(), &keys.len());
    for (entry, key) in merged.iter().zip(keys) {
        same(&rt, &entry.key, &key);
    }
}

/// Two parts in pieces: a piece ends with a tick, as soon as it has so many entries. The part of process 2 comes first,
/// so that a piece has to be put in order.
#[test]
fn in_pieces(rt: HostRuntime) {
    let alloc = rt.alloc();
    let keys = [
        own_key(0, pid(1), 0),
        own_key(0, pid(2), 0),
        own_key(1, pid(2), 1),
        own_key(4, pid(1), 1),
        own_key(4, pid(2), 2),
    ];
    for (least, ends) in [(1, [2, 3, 5, 5]), (2, [2, 5, 5, 5]), (4, [5, 5, 5, 5])] {
        let first = vec![in alloc;
            entry(alloc, keys[1]),
            entry(alloc, keys[2]),
            entry(alloc, keys[4]),
        ];
        let last = vec![in alloc; entry(alloc, keys[0]), entry(alloc, keys[3])];
        let (first, last) = (first.expect(&rt, NO_MEMORY), last.expect(&rt, NO_MEMORY));
        let parts = vec![in alloc; first, last].expect(&rt, NO_MEMORY);
        let mut merging = Merging::new(alloc, parts).expect(&rt, NO_MEMORY);
        let mut taken = 0usize;
        for end in ends {
            let (piece, rest) = merging.first_piece(least).expect(&rt, NO_MEMORY);
            same(&rt, &taken.saturating_add(piece.len()), &end);
            for (entry, key) in piece.iter().zip(keys.iter().skip(taken)) {
                same(&rt, &entry.key, key);
            }
            taken = end;
            merging = rest;
        }
    }
}
