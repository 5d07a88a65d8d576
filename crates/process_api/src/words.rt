//! Words of bits in a row: bit 64 is the lowest of the second word.
ghost use Rattle.std.specs.{Prelude.{◌≡◌, ◌≢◌, ℕ, ◌*◌, ◌<◌, ◌&&◌, ◌||◌, not, true, false, nat_lt, cond, IsNone, IfSome, slice_index}, Int.{bit_at}};
ghost use Rattle.std.specs.FinSet as set;
ghost use Rattle.process_api.specs.{Inside.Bits.{is_set, members}, Place.{most_processes}};

use crate::pid::MOST_PROCESSES;

/// How many words have a bit for each process.
pub(crate) const WORDS: usize = MOST_PROCESSES as usize / 64;

const _: () = prove!(WORDS * 64 == MOST_PROCESSES as usize);

/// Sets a bit.
pub(crate) fn put(words: &mut [u64; WORDS], place: usize)
    requires { place < most_processes }
    ensures own { is_set words.new place ≡ true }
    ensures others { (other : ℕ) → other ≢ place → is_set words.new other ≡ is_set words.old other }
{
    words[place / 64] |= 1 << (place % 64);
}

/// Clears a bit.
pub(crate) fn clear(words: &mut [u64; WORDS], place: usize)
    requires { place < most_processes }
    ensures own { is_set words.new place ≡ false }
    ensures others { (other : ℕ) → other ≢ place → is_set words.new other ≡ is_set words.old other }
{
    words[place / 64] &= !(1 << (place % 64));
}

/// The bits of either.
pub(crate) fn either(a: &[u64; WORDS], b: &[u64; WORDS]) -> [u64; WORDS]
    ensures { (place : ℕ) → place < most_processes → is_set result place ≡ (is_set a.now place || is_set b.now place) }
{
    let mut both = *a;
    for k in 0..WORDS {
        both[k] |= b[k];
    }
    both
}

/// The bits that the others don't have.
pub(crate) fn without(words: &[u64; WORDS], others: &[u64; WORDS]) -> [u64; WORDS]
    ensures { (place : ℕ) → place < most_processes
        → is_set result place ≡ (is_set words.now place && not (is_set others.now place)) }
{
    let mut left = *words;
    for k in 0..WORDS {
        // clears those that both have
        left[k] ^= words[k] & others[k];
    }
    left
}

/// The lowest so many bits of a word.
fn low_bits(word: u64, most: usize) -> u64
    ensures { (place : ℕ) → place < 64 → bit_at result place ≡ cond (nat_lt place most) (bit_at word place) 0 }
{
    if most >= 64 {
        return word;
    }
    word & ((1 << most) - 1)
}

/// The lowest so many bits.
pub(crate) fn low(words: &[u64; WORDS], most: usize) -> [u64; WORDS]
    ensures { (place : ℕ) → place < most_processes
        → is_set result place ≡ (is_set words.now place && nat_lt place most) }
{
    let mut kept = *words;
    for k in 0..WORDS {
        kept[k] = low_bits(words[k], most.saturating_sub(k * 64));
    }
    kept
}

/// The first word with a bit that is set.
pub(crate) fn first_with_bits(words: &[u64; WORDS]) -> Option<usize>
    ensures some { IfSome result (λ k. (k < WORDS) × (0 < slice_index words.now k)
        × ((j : ℕ) → j < k → slice_index words.now j ≡ 0)) }
    ensures none { IsNone result → (j : ℕ) → j < WORDS → slice_index words.now j ≡ 0 }
{
    for k in 0..WORDS {
        if words[k] != 0 {
            return Some(k);
        }
    }
    None
}

/// How many bits are set.
pub(crate) fn count(words: &[u64; WORDS]) -> u32
    ensures { result ≡ set.len (members most_processes (is_set words.now)) }
{
    let mut count = 0;
    for k in 0..WORDS {
        count += words[k].count_ones();
    }
    count
}
