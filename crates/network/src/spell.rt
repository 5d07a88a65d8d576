//! How long a gap or an outage lasts.
ghost use Rattle.std.specs.Prelude.{◌≡◌, ◌<◌, ◌≤◌, ◌*◌, ◌+◌, ◌%◌, ◌^◌, length, slice_index, if◌then◌else◌};
ghost use Rattle.network.specs.{Words.{after}, Drawn.{digits_drawn, first_ticks_of, first_words_taken, geometric, is_one, ticks_of, words_taken}, Ranges.{AreValues, IsSpell, IsTicks}, Inside.Coming.{to_come}};

use crate::words::SourceWords;

/// How many ticks a gap or an outage lasts, as it is drawn. `ticks_of` (`specs/Drawn.antt`) says what a draw gives.
#[derive(Drop)]
pub enum Spell {
    /// Always so many ticks, 1 to 10,000,000.
    Ticks(u32),
    /// One of these, 1 to 100,000 of them, each 1 to 10,000,000 ticks; each as likely as any other.
    Values(Vec<u32>),
    /// Geometric with this mean, 1 to 10,000,000 ticks.
    Mean(u32),
}

/// What a digit says by a word, with its odds in units of 2^-32: the digit's place value, or 0.
fn digit_of(odds: u64, word: u32, digit: u32) -> u32
    requires odds { odds < 2 ^ 32 }
    requires digit { digit < digits_drawn }
    ensures value { result ≡ (if is_one odds word then 2 ^ digit else 0) }
    ensures high { result ≤ 2 ^ digit }
{
    let is_one = u128::from(word) * ((1 << 32) + u128::from(odds)) < (1 << 32) * u128::from(odds);
    if is_one { 1 << digit } else { 0 }
}

impl SourceWords {
    /// One of some values, by a word.
    fn pick(&mut self, values: &[u32]) -> u32
        requires { AreValues values.now }
        ensures value { result ≡ slice_index values.now (to_come self.old 0 % length values.now) }
        ensures rest { to_come self.new ≡ after 1 (to_come self.old) }
        ensures range { IsTicks result }
    {
        let word = self.next() as usize;
        values[word % values.len()]
    }

    /// A geometric number of a mean, by 28 words.
    fn geometric(&mut self, mean: u32) -> u32
        requires { IsTicks mean }
        ensures value { result ≡ geometric mean (to_come self.old) }
        ensures rest { to_come self.new ≡ after digits_drawn (to_come self.old) }
        ensures low { 1 ≤ result }
        ensures high { result ≤ 2 ^ 28 }
    {
        let mean = u64::from(mean);
        let mut odds = (1 << 32) * (mean - 1) / mean;
        let mut drawn = 0;
        for digit in 0..28_u32 {
            drawn += digit_of(odds, self.next(), digit);
            odds = odds * odds / (1 << 32);
        }
        1 + drawn
    }

    /// The next gap or length, in ticks.
    #[tactic(auto, unfolding(crate::specs::Drawn::ticks_of, crate::specs::Drawn::words_taken))]
    pub(crate) fn ticks(&mut self, spell: &Spell) -> u32
        requires { IsSpell spell.now }
        ensures value { result ≡ ticks_of spell.now (to_come self.old) }
        ensures rest { to_come self.new ≡ after (words_taken spell.now) (to_come self.old) }
        ensures low { 1 ≤ result }
        ensures high { result ≤ 2 ^ 28 }
    {
        match spell {
            Spell::Ticks(number) => *number,
            Spell::Values(values) => self.pick(values),
            Spell::Mean(mean) => self.geometric(*mean),
        }
    }

    /// What is left at tick 0 of the first gap, in ticks.
    #[tactic(auto, unfolding(crate::specs::Drawn::first_ticks_of, crate::specs::Drawn::first_words_taken))]
    pub(crate) fn first_ticks(&mut self, spell: &Spell) -> u32
        requires { IsSpell spell.now }
        ensures value { result ≡ first_ticks_of spell.now (to_come self.old) }
        ensures rest { to_come self.new ≡ after (first_words_taken spell.now) (to_come self.old) }
        ensures high { result ≤ 2 ^ 28 }
    {
        match spell {
            Spell::Ticks(number) => self.next() % *number,
            Spell::Values(values) => {
                let value = self.pick(values);
                self.next() % value
            }
            Spell::Mean(mean) => self.geometric(*mean) - 1,
        }
    }
}
