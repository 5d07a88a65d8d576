//! The letters that are kept, and the contents of those of a round.
ghost use Rattle.std.specs.{Prelude.{◌≡◌, ◌≤◌, ℕ, ◌||◌, false, not, is_some, None, Some, OnOk}, Option.{option_copied}};
ghost use Rattle.std.specs.FinSet as set;
ghost use Rattle.process_api.specs.{Place.{most_processes}, Rows.{cell}, ConsensusS.{above, all_to, keep as keep_of}};
ghost use Rattle.consensus_s.specs.State.{kept_of, missed_in, told_in};

use process_api::{Cells, Letters, Pid, ProcSet};
use std::alloc::AllocError;

/// Keeps a vector, unless one of its round and sender is kept already. The last vectors are those of round n.
pub(crate) fn keep(
    letters: &mut Letters<Cells>,
    round: u64,
    sender: Pid,
    cells: &Cells,
) -> Result<(), AllocError>
    ensures { OnOk result (kept_of letters.new ≡ keep_of (kept_of letters.old) round sender cells.now) }
{
    if letters.has(round, sender) {
        return Ok(());
    }
    letters.keep(round, sender, cells.copy()?)
}

/// Drops the letters of a round, and of all rounds before it.
pub(crate) fn leave(letters: &mut Letters<Cells>, round: u64)
    requires { round ≤ most_processes }
    ensures { kept_of letters.new ≡ above round (kept_of letters.old) }
{
    letters.drop_before(round + 1);
}

/// The letter of a sender in a round.
fn get(letters: &Letters<Cells>, round: u64, sender: Pid) -> Option<&Cells>
    ensures { option_copied result ≡ kept_of letters.now round sender }
{
    match letters.row(round) {
        Some(row) => row.get(sender),
        None => None,
    }
}

/// The processes that were heard of in a round, or are suspected.
fn settled(letters: &Letters<Cells>, round: u64, suspects: &ProcSet) -> ProcSet
    ensures { (q : ℕ) → set.contains result q
        ≡ (is_some (kept_of letters.now round q) || set.contains suspects.now q) }
{
    match letters.row(round) {
        Some(row) => row.heard_or(suspects),
        None => suspects.copy(),
    }
}

/// Whether each of processes 1 to `n` was heard of in a round, or is suspected.
pub(crate) fn is_over(letters: &Letters<Cells>, n: u16, round: u64, suspects: &ProcSet) -> bool
    requires { n ≤ most_processes }
    ensures { result ≡ all_to n (λ q. is_some (kept_of letters.now round q) || set.contains suspects.now q) }
{
    settled(letters, round, suspects).has_all(n)
}

/// What the letter of a sender in a round tells of cell `k`.
fn told_by(letters: &Letters<Cells>, round: u64, sender: Pid, k: Pid) -> Option<u32>
    ensures { result ≡ (elim (kept_of letters.now round sender) [ None ↦ None | Some cells ↦ cell cells k ]) }
{
    get(letters, round, sender)?.get(k)
}

/// What the letters of a round tell of cell `k`: the value of the least sender that has one.
pub(crate) fn told(letters: &Letters<Cells>, n: u16, round: u64, k: Pid) -> Option<u32>
    requires { n ≤ most_processes }
    ensures { result ≡ told_in n (kept_of letters.now) round k }
{
    for before in 0..n {
        let told = told_by(letters, round, Pid::after(before), k);
        if told.is_some() {
            return told;
        }
    }
    None
}

/// Whether cell `k` is empty in the letter of a sender in a round.
fn is_missed_by(letters: &Letters<Cells>, round: u64, sender: Pid, k: Pid) -> bool
    ensures { result
        ≡ (elim (kept_of letters.now round sender) [ None ↦ false | Some cells ↦ not (is_some (cell cells k)) ]) }
{
    match get(letters, round, sender) {
        Some(cells) => cells.get(k).is_none(),
        None => false,
    }
}

/// Whether cell `k` is empty in some letter of a round.
pub(crate) fn is_missed(letters: &Letters<Cells>, n: u16, round: u64, k: Pid) -> bool
    requires { n ≤ most_processes }
    ensures { result ≡ missed_in n (kept_of letters.now) round k }
{
    for before in 0..n {
        if is_missed_by(letters, round, Pid::after(before), k) {
            return true;
        }
    }
    false
}
