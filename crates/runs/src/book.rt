//! The letters of a run, as they are heard of.
ghost use Rattle.std.specs.Prelude.{◌≡◌, []};
ghost use Rattle.trace_laws.specs.Setting.{setting_of};
ghost use Rattle.runs.specs.Letters.{due_of, fate_of as fate_for, letter_of as letter_for};

use event_list::{Listener, kind_of_letter};
use process_api::{Key, Payload, Pid};
use reporting::{Letter, LetterFate};
use scenario_record::Scenario;
use std::alloc::{AllocError, Global};
use streams::Fate;

/// The tick when a letter that is sent at a tick is due, unless its link loses it.
fn due_at(sent: u32, fate: Fate) -> Option<u64>
    ensures { result ≡ due_of sent fate }
{
    match fate {
        Fate::Lost => None,
        Fate::Delay(ticks) => Some(u64::from(sent) + u64::from(ticks)),
    }
}

/// What becomes of a letter to this receiver that is due then.
fn fate_of(scenario: &Scenario, receiver: Pid, due: Option<u64>) -> LetterFate
    ensures { result ≡ fate_for (setting_of scenario.now) receiver due }
{
    let Some(due) = due else {
        return LetterFate::Lost;
    };
    if u64::from(scenario.horizon()) <= due {
        return LetterFate::Late;
    }
    match scenario.crash(receiver) {
        Some(at) if u64::from(at) <= due => LetterFate::Dead,
        _ => LetterFate::Taken,
    }
}

/// What is told of a letter.
fn letter_of(scenario: &Scenario, sent: &Key, payload: &Payload, fate: Fate) -> Letter
    ensures { result ≡ letter_for (setting_of scenario.now)
        (record { key = sent.now; payload = payload.now; fate = fate }) }
{
    let due = due_at(sent.tick, fate);
    Letter {
        sent: sent.tick,
        sender: sent.sender,
        receiver: sent.receiver,
        number: sent.number,
        kind: kind_of_letter(payload),
        due,
        fate: fate_of(scenario, sent.receiver, due),
    }
}

/// Keeps what is told of the letters of a scenario's run.
#[derive(Drop)]
pub(crate) struct LetterBook<'a> {
    scenario: &'a Scenario,
    pub letters: Vec<Letter>,
}

impl<'a> LetterBook<'a> {
    /// No letter yet.
    pub(crate) fn new(alloc: Global, scenario: &'a Scenario) -> LetterBook<'a>
        ensures scenario { result.scenario.now ≡ scenario.now }
        ensures none { result.letters.items ≡ [] }
    {
        LetterBook {
            scenario,
            letters: Vec::new(alloc),
        }
    }
}

impl Listener for LetterBook<'_> {
    ghost use Rattle.runs.specs.Inside.Book.{HasHeard};

    ghost heard = { HasHeard };

    /// Keeps the letter.
    fn hear(&mut self, sent: &Key, payload: &Payload, fate: Fate) -> Result<(), AllocError> {
        self.letters
            .push(letter_of(self.scenario, sent, payload, fate))?;
        Ok(())
    }
}
