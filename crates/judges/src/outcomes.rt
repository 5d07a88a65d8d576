//! The decisions of a run's processes.
ghost use Rattle.std.specs.Prelude.{◌≡◌, ◌≤◌, ◌++◌, ◌∷◌, ℕ, List, [], IfOk};
ghost use Rattle.{process_api.specs.Order.{EntryRecord}, scenario_record.specs.Ranges.{IsInRange}};
ghost use Rattle.judges.specs.{Agreement.{Agree, DecidesOnce, IsCoordinated}, Outcomes.{outcome, outcomes}, Inside.Noting.{all_noted, noted}};

use process_api::{Entry, Follower, Note, Pid, Trace, follow_all};
use scenario_record::Scenario;
use std::alloc::{AllocError, Global};

/// What a process decided.
#[derive(Clone, Copy, Debug, PartialEq, Eq)]
pub enum Answer {
    /// It noted no decision.
    None,
    /// Its algorithm ended with no value.
    NoValue,
    /// It decided this value.
    Value(u32),
}

/// What became of one process.
#[derive(Clone, Copy, Debug, PartialEq, Eq)]
pub struct Outcome {
    /// The process.
    pub pid: Pid,
    /// What it decided first.
    pub value: Answer,
    /// The tick at which it noted that, if it did.
    pub tick: Option<u32>,
    /// The greatest round that it noted; 0 where it noted none.
    pub rounds: u64,
}

impl Outcome {
    /// Nothing is noted.
    fn open(pid: Pid) -> Outcome
        ensures { result ≡ outcome [] pid }
    {
        Outcome {
            pid,
            value: Answer::None,
            tick: None,
            rounds: 0,
        }
    }
}

/// One more note of the process.
fn note(outcome: &mut Outcome, tick: u32, note: &Note)
    ensures { outcome.new ≡ noted outcome.old tick note.now }
{
    match *note {
        Note::Suspect { .. } | Note::Trust { .. } => {}
        Note::Round(round) => outcome.rounds = outcome.rounds.max(round),
        Note::Decided(value) => {
            if let Answer::None = outcome.value {
                outcome.value = Answer::Value(value);
                outcome.tick = Some(tick);
            }
        }
        Note::NoValue => {
            if let Answer::None = outcome.value {
                outcome.value = Answer::NoValue;
                outcome.tick = Some(tick);
            }
        }
    }
}

#[inline(never)]
fn note_all(outcome: &mut Outcome, tick: u32, notes: &[Note])
    ensures { outcome.new ≡ all_noted outcome.old tick notes.now }
{
    for one in notes {
        note(outcome, tick, one);
    }
}

/// The outcomes of all processes, fed with the entries of a trace as they come, in the order of their keys.
///
/// All its room is made as it opens. Fed with all entries of a trace it answers what [`decisions`] answers of
/// that trace.
#[derive(Drop)]
pub struct RunningOutcomes {
    // of process 1 first
    outcomes: Vec<Outcome>,
}

impl RunningOutcomes {
    ghost use Rattle.judges.specs.Pairs.{IsDeciding};

    /// Nothing is noted.
    ///
    /// # Errors
    ///
    /// Where a growth was refused.
    pub fn open(alloc: Global, scenario: &Scenario) -> Result<RunningOutcomes, AllocError>
        ensures value { IfOk result (λ r. IsDeciding scenario.now.processes [] r) }
        ensures ranges { IsInRange scenario.now }
    {
        let mut outcomes = Vec::with_capacity(alloc, usize::from(scenario.processes()))?;
        for before in 0..scenario.processes() {
            outcomes.push(Outcome::open(Pid::after(before)))?;
        }
        Ok(RunningOutcomes { outcomes })
    }

    /// One more entry. Takes no memory.
    #[inline(always)]
    pub fn feed(&mut self, entry: &Entry)
        ensures { (n : ℕ) (trace : List EntryRecord) → IsDeciding n trace self.old
            → IsDeciding n (trace ++ entry.now ∷ []) self.new }
    {
        let place = usize::from(entry.key.receiver.number()) - 1;
        if let Some(outcome) = self.outcomes.get_mut(place) {
            note_all(outcome, entry.key.tick, entry.notes.as_slice());
        }
    }

    /// The outcomes, of process 1 first, as no entry follows. Takes no memory.
    pub fn close(self) -> Vec<Outcome>
        ensures { (n : ℕ) (trace : List EntryRecord) → IsDeciding n trace self → result.items ≡ outcomes trace n }
    {
        self.outcomes
    }
}

impl Follower for RunningOutcomes {
    ghost use Rattle.judges.specs.Pairs.{IsDeciding};

    ghost followed = { λ first now told. (n : ℕ) → IsDeciding n [] first → IsDeciding n told now };

    /// One more entry. Takes no memory; one without notes takes no time.
    #[inline(always)]
    fn follow(&mut self, entry: &Entry) -> Result<(), AllocError> {
        if entry.notes.is_empty() {
            return Ok(());
        }
        self.feed(entry);
        Ok(())
    }
}

/// What each process of a finished trace decided first, when, and the greatest round that it noted; process 1 first.
///
/// In the trace of a scenario with the rotating coordinator, no two outcomes have different values, each value was
/// proposed by some process, no process ends with no value, and each notes at most one decision: under any detector
/// settings, delays, losses and crashes. These are agreement, validity and integrity of Chandra and Toueg (Journal of
/// the ACM 43(2), 1996). It isn't promised that anybody decides.
///
/// # Errors
///
/// Where a growth was refused.
pub fn decisions(
    alloc: Global,
    scenario: &Scenario,
    trace: &Trace,
) -> Result<Vec<Outcome>, AllocError>
    ensures outcomes { IfOk result (λ v. v.items ≡ outcomes trace.now scenario.now.processes) }
    ensures agree { IfOk result (λ v. IsCoordinated scenario.now trace.now → Agree scenario.now v.items) }
    ensures once { IsCoordinated scenario.now trace.now → (p : ℕ) → DecidesOnce trace.now p }
{
    let mut running = RunningOutcomes::open(alloc, scenario)?;
    follow_all(&mut running, trace.entries())?;
    Ok(running.close())
}
