//! Merging of the parts of a trace, whole or in pieces.
ghost use Rattle.std.specs.Prelude.{◌≡◌, ◌<◌, ◌≤◌, ◌⊎◌, ◌++◌, List, [], length, map, IsTrue, IfOk, IfErr, All, IsPermutation};
ghost use Rattle.process_api.specs.Order.{EntryRecord, is_rising};
ghost use Rattle.trace_merge.specs.Parts.{all_of, AreDisjoint, IsMergeOf};

use crate::by_tick::{Lane, Reach, take_tick};
use crate::joined::Joined;
use process_api::{Entry, RunError};
use std::alloc::Global;
use std::marker::Model;

/// Parts of a trace that are merged piece by piece: what is left of each.
///
/// It goes tick by tick and, in a tick, part by part: where the parts are of one receiver each and come by rising
/// receiver, the entries of a piece are in order then, which is seen as they are joined, and nothing is left to put in
/// order.
#[derive(Drop)]
pub struct Merging {
    alloc: Global,
    lanes: Vec<Lane>,
    // a quarter more entries than the last piece had, and 0 before the first: the next gets memory for so many, or for
    // twice those that are asked for
    room: usize,
    reach: Reach,
}

impl Model for Merging {
    ghost use Rattle.{std.specs.Prelude.{List, map}, process_api.specs.Order.{EntryRecord}};
    ghost use Rattle.trace_merge.specs.Parts.{all_of, AllDiffer};

    ghost Value = { List (List EntryRecord) };

    ghost view = { λ m. map (λ lane. lane.rest.items) m.lanes.items };

    ghost invariant = { λ m. AllDiffer (all_of (map (λ lane. lane.rest.items) m.lanes.items)) };
}

/// How many entries are left.
fn left_in(lanes: &[Lane]) -> usize {
    lanes.iter().fold(0, |room: usize, lane| room.saturating_add(lane.rest.len()))
}

impl Merging {
    /// Begins to merge parts, each with strictly rising keys and no key in two of them.
    ///
    /// # Errors
    ///
    /// `Memory` where memory was refused; the entries are gone.
    pub fn new(alloc: Global, parts: Vec<Vec<Entry>>) -> Result<Merging, RunError>
        requires rising { All (λ part. IsTrue (is_rising part.items)) parts.items }
        requires disjoint { AreDisjoint (map (λ part. part.items) parts.items) }
        ensures same { IfOk result (λ left. left ≡ map (λ part. part.items) parts.items) }
        ensures err { IfErr result (λ e. e ≡ RunError.Memory) }
    {
        let mut lanes = Vec::with_capacity(alloc, parts.len())?;
        for part in parts {
            let (next, rest) = (0, part.into());
            lanes.push(Lane { next, rest })?;
        }
        let (room, reach) = (0, Reach::new());
        Ok(Merging {
            alloc,
            lanes,
            room,
            reach,
        })
    }

    /// The first piece of what the parts merge to, and what is left of them. The piece has whole ticks, and at least so
    /// many entries, or all.
    ///
    /// # Errors
    ///
    /// `Memory` where a growth was refused; the entries are gone.
    pub fn first_piece(self, least: usize) -> Result<(Vec<Entry>, Merging), RunError>
        ensures front { IfOk result (λ r. (rest : List EntryRecord)
            → IsMergeOf r.1 rest → IsMergeOf self (r.0.items ++ rest)) }
        ensures left { IfOk result (λ r. (rest : List EntryRecord) × IsMergeOf r.1 rest) }
        ensures whole { IfOk result (λ r. All (λ e. All (λ f. e.key.tick < f.key.tick) (all_of r.1)) r.0.items) }
        ensures enough { IfOk result (λ r. (least ≤ length r.0.items) ⊎ (all_of r.1 ≡ [])) }
        ensures err { IfErr result (λ e. e ≡ RunError.Memory) }
    {
        let Merging {
            alloc,
            mut lanes,
            room,
            mut reach,
        } = self;
        // The last tick may bring more than are wanted.
        let room = room.max(least.saturating_mul(2)).min(left_in(&lanes));
        let entries = Vec::with_capacity(alloc, room)?;
        let rises = true;
        let mut merged = Joined { entries, rises };
        let mut at = Some(0);
        while let Some(tick) = at {
            if merged.entries.len() >= least {
                break;
            }
            reach.look_ahead(&lanes, tick);
            at = take_tick(&mut merged, &mut lanes, tick)?;
        }
        let piece = merged.in_order();
        let room = piece.len().saturating_add(piece.len() / 4);
        let rest = Merging {
            alloc,
            lanes,
            room,
            reach,
        };
        Ok((piece, rest))
    }

    /// The memory of the parts, in empty lists, joins others: that of the first part is the last. Where memory is
    /// refused, some of it is dropped.
    pub fn keep_rooms(self, rooms: &mut Vec<Vec<Entry>>)
        ensures { All (λ room. room.items ≡ []) rooms.old.items → All (λ room. room.items ≡ []) rooms.new.items }
    {
        let Merging { mut lanes, .. } = self;
        while let Some(lane) = lanes.pop() {
            let mut room: Vec<Entry> = lane.rest.into();
            room.clear();
            let _kept = rooms.push(room);
        }
    }
}

/// Merges parts of a trace, each with strictly rising keys and no key in two of them, into one with strictly rising
/// keys, which holds exactly their entries. No entry is copied.
///
/// # Errors
///
/// `Memory` where a growth was refused; the entries are gone.
pub fn merge(alloc: Global, parts: Vec<Vec<Entry>>) -> Result<Vec<Entry>, RunError>
    requires rising { All (λ part. IsTrue (is_rising part.items)) parts.items }
    requires disjoint { AreDisjoint (map (λ part. part.items) parts.items) }

    ensures rising { IfOk result (λ v. IsTrue (is_rising v.items)) }
    ensures same { IfOk result (λ v. IsPermutation (all_of (map (λ part. part.items) parts.items)) v.items) }
    ensures err { IfErr result (λ e. e ≡ RunError.Memory) }
{
    let merging = Merging::new(alloc, parts)?;
    let (merged, _rest) = merging.first_piece(usize::MAX)?;
    Ok(merged)
}
