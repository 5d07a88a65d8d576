//! What becomes of letters, by the streams of their links.
ghost use Rattle.std.specs.Prelude.{◌≡◌, ◌≢◌, ◌≤◌, ◌<◌, ◌+◌, ◌-◌, ◌*◌, ◌^◌, ℕ, IfOk, IfErr};
ghost use Rattle.scenario_record.specs.Record.{Record};
ghost use Rattle.streams.specs.Fate.{fate_of, fate_by as fate_for, fate_by_words};

use crate::fate::Fate;
use crate::inverse::Inverse;
use crate::words::{SenderWords, pair_of};
use process_api::Pid;
use scenario_record::{Link, Scenario};
use std::marker::Model;

/// The streams of a scenario, one for each link. Contracts see the scenario's record.
#[derive(Drop)]
pub struct Streams<'a> {
    scenario: &'a Scenario,
    // of the span of delays that many links have
    usual: Inverse,
}

impl<'a> Model for Streams<'a> {
    ghost Value = { Record };

    ghost view = { λ s. s.scenario.now };
}

/// The fate by a letter's two words.
#[inline(always)]
fn fate_by(link: Link, usual: Inverse, words: (u32, u32)) -> Fate
    requires { (link.min ≤ link.max) × (link.max < 2 ^ 31) }
    ensures { result ≡ fate_for link words.0 words.1 }
{
    let (a, b) = words;
    if a % 1000 < link.loss {
        Fate::Lost
    } else {
        Fate::Delay(link.min + usual.remainder(b, link.max - link.min + 1))
    }
}

/// How many delays the first link has. Most links of a scenario are alike.
fn usual_span(scenario: &Scenario) -> u32 {
    if scenario.processes() < 2 {
        return 1;
    }
    let link = scenario.link(Pid::after(0), Pid::after(1));
    link.max.wrapping_sub(link.min).wrapping_add(1)
}

impl<'a> Streams<'a> {
    /// The streams of a scenario.
    pub fn new(scenario: &'a Scenario) -> Streams<'a>
        ensures { result ≡ scenario.now }
    {
        Streams {
            scenario,
            usual: Inverse::of(usual_span(scenario)),
        }
    }

    /// The fate of a letter that has no need of words, as it is lost in an outage, or its link has no loss and one
    /// delay. For others the error is what the link does to letters.
    #[inline(always)]
    #[tactic(auto, unfolding(crate::specs::Fate::fate_of))]
    fn sure_fate(&self, from: Pid, to: Pid, sent_at: u32) -> Result<Fate, Link>
        requires different { from ≢ to }
        requires from_one { from ≤ self.now.processes }
        requires to_one { to ≤ self.now.processes }
        ensures sure { IfOk result (λ fate. (number : ℕ) → fate ≡ fate_of self.now from to number sent_at) }
        ensures by_words { IfErr result (λ l. (number : ℕ)
            → fate_of self.now from to number sent_at ≡ fate_by_words l self.now.seed from to number) }
        ensures ranges { IfErr result (λ l. (l.min ≤ l.max) × (l.max < 2 ^ 31)) }
    {
        if self.scenario.is_cut(from, to, sent_at) {
            return Ok(Fate::Lost);
        }
        let link = self.scenario.link(from, to);
        if link.loss == 0 && link.min == link.max {
            return Ok(Fate::Delay(link.min));
        }
        Err(link)
    }

    /// What becomes of letter `number` (from 1) of the link from one process to another, sent at the tick `sent_at`.
    /// The answer is by the place and the tick of sending alone: asked again, or in any order, it is the same.
    pub fn fate(&self, from: Pid, to: Pid, number: u64, sent_at: u32) -> Fate
        requires different { from ≢ to }
        requires from_one { from ≤ self.now.processes }
        requires to_one { to ≤ self.now.processes }
        requires counted { 1 ≤ number }
        ensures { result ≡ fate_of self.now from to number sent_at }
    {
        match self.sure_fate(from, to, sent_at) {
            Ok(fate) => fate,
            Err(link) => {
                let words = pair_of(self.scenario.seed(), from, to, number);
                fate_by(link, self.usual, words)
            }
        }
    }

    /// The same, for letters that are asked for in their turn: the words of the next letters of a link are kept in
    /// `words`, which one sender has. A letter that is lost in an outage draws none, and nor does a link without loss
    /// and with one delay: the words of the next letters are at their own places all the same.
    #[inline(always)]
    pub fn next_fate(
        &self,
        from: Pid,
        to: Pid,
        number: u64,
        sent_at: u32,
        words: &mut SenderWords,
    ) -> Fate
        requires different { from ≢ to }
        requires from_one { from ≤ self.now.processes }
        requires to_one { to ≤ self.now.processes }
        requires counted { 1 ≤ number }
        ensures { result ≡ fate_of self.now from to number sent_at }
    {
        match self.sure_fate(from, to, sent_at) {
            Ok(fate) => fate,
            Err(link) => fate_by(
                link,
                self.usual,
                words.pair_at(self.scenario.seed(), from, to, number),
            ),
        }
    }
}
