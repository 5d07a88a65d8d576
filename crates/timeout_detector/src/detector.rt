//! The detector of one process.
ghost use Rattle.std.specs.Prelude.{◌≡◌, ◌≢◌, ◌≤◌, ◌+◌, ◌++◌, false, true, IsTrue, IfOk, OnOk, vec_len};
ghost use Rattle.std.specs.FinSet as set;
ghost use Rattle.process_api.specs.{Detector.{is_timeout}, declared.numbers.DetectorNumbers.TheVariants.{Timeout}};
ghost use Rattle.scenario_record.specs.Opening.{base_of};

use crate::bound::grown;
use process_api::{
    Action, Detector, DetectorNumbers, Note, Payload, Pid, ProcSet, StepInput, Tag, TimeoutNumbers,
    note_changes, note_that, send_to_others, wake_after,
};
use scenario_record::Opening;
use std::alloc::{AllocError, Global};

/// The time-out detector of one process (Chandra and Toueg, Journal of the ACM 43(2), 1996).
///
/// For each other process it keeps the tick at which that was heard of last (0 at the opening), with how many ticks
/// of silence it becomes suspected (its bound; `timeout` at the opening), and whether it is suspected.
#[derive(Drop)]
pub struct TimeoutDetector {
    opening: Opening,
    numbers: TimeoutNumbers,
    // by process; place 0 is unused
    last_heard: Vec<u32>,
    // by process; place 0 is unused
    bound: Vec<u32>,
    suspects: ProcSet,
    has_failed: bool,
    ghost kind: { opening.detector ≡ Timeout numbers },
    ghost heard_places: { vec_len last_heard ≡ opening.processes + 1 },
    ghost bound_places: { vec_len bound ≡ opening.processes + 1 },
    ghost not_itself: { set.contains suspects opening.own ≡ false },
}

impl TimeoutDetector {
    ghost use Rattle.timeout_detector.specs.Inside.View.{state_of, is_watched, is_overdue, checked_by, heard_by, beats_of, answer_of};

    /// The detector with which a process opens that has the numbers of this kind: it suspects nobody, and has heard of
    /// nobody since tick 0. Its tables have a place for each process, and nothing else in it needs memory.
    pub fn open(alloc: Global, opening: &Opening) -> Result<TimeoutDetector, AllocError>
        requires kind { IsTrue (is_timeout opening.now.detector) }
        ensures opens { IfOk result (λ d. ⟦<TimeoutDetector as Detector>⟧.lower d ≡ base_of opening.now) }
        ensures alive { IfOk result (λ d. ⟦<TimeoutDetector as Detector>⟧.has_failed d ≡ false) }
    {
        let DetectorNumbers::Timeout(numbers) = opening.detector else {
            unreachable!()
        };
        let places = usize::from(opening.processes) + 1;
        Ok(TimeoutDetector {
            opening: *opening,
            numbers,
            last_heard: vec![in alloc; 0u32; places]?,
            bound: vec![in alloc; numbers.timeout; places]?,
            suspects: ProcSet::new(),
            has_failed: false,
        })
    }

    /// Whether a process is watched: another of 1 to n, and under `Watch::Next` the next one in their circle.
    fn watches(&self, q: Pid) -> bool
        ensures value { result ≡ is_watched self.now q }
        ensures known { result ≡ true → q ≤ self.now.opening.processes }
        ensures other { result ≡ true → q ≢ self.now.opening.own }
    {
        self.numbers
            .watch
            .takes_in(self.opening.own, self.opening.processes, q)
    }

    /// Whether a process is overdue at tick `now`: it is watched and not yet suspected, and was silent for its bound
    /// or longer.
    fn is_overdue(&self, now: u32, q: Pid) -> bool
        ensures value { result ≡ is_overdue self.now now q }
        ensures other { result ≡ true → q ≢ self.now.opening.own }
    {
        let place = usize::from(q.number());
        // the silence first, since hardly any process was silent for so long
        q.number() <= self.opening.processes
            && self.bound[place] <= now.saturating_sub(self.last_heard[place])
            && self.watches(q)
            && !self.suspects.contains(q)
    }

    /// Whom it suspects after a check at tick `now`: whom it suspects already, and all that are overdue.
    fn suspects_at(&self, now: u32) -> ProcSet
        ensures value { result ≡ (checked_by self.now now).state.suspects }
        ensures not_itself { set.contains result self.now.opening.own ≡ false }
    {
        let mut suspects = self.suspects.copy();
        for before in 0..self.opening.processes {
            let q = Pid::after(before);
            if self.is_overdue(now, q) {
                suspects.insert(q);
            }
        }
        suspects
    }

    /// A check at tick `now`: suspects each process that is overdue, in rising order, with its note, and asks for the
    /// next check.
    #[inline(never)]
    fn check(&mut self, now: u32, out: &mut Vec<Action>) -> Result<(), AllocError>
        ensures state { OnOk result (state_of self.new ≡ (checked_by self.old now).state) }
        ensures actions { OnOk result (out.new.items ≡ out.old.items ++ (checked_by self.old now).actions) }

        ensures opening { self.new.opening ≡ self.old.opening }
        ensures numbers { self.new.numbers ≡ self.old.numbers }
        ensures failure { self.new.has_failed ≡ self.old.has_failed }
    {
        let suspects = self.suspects_at(now);
        note_changes(out, 1, self.opening.processes, &self.suspects, &suspects)?;
        self.suspects = suspects;
        wake_after(out, self.numbers.check, Tag::Check)
    }

    /// Hears at tick `now` of a process that is watched. If it was suspected, that was a mistake: it is trusted again,
    /// with its note, and its bound grows.
    #[inline(always)]
    fn hear(&mut self, now: u32, q: Pid, out: &mut Vec<Action>) -> Result<(), AllocError>
        requires { q ≤ self.old.opening.processes }

        ensures state { OnOk result (state_of self.new ≡ (heard_by self.old now q).state) }
        ensures actions { OnOk result (out.new.items ≡ out.old.items ++ (heard_by self.old now q).actions) }

        ensures opening { self.new.opening ≡ self.old.opening }
        ensures numbers { self.new.numbers ≡ self.old.numbers }
        ensures failure { self.new.has_failed ≡ self.old.has_failed }
    {
        let horizon = self.opening.horizon;
        let place = usize::from(q.number());
        self.last_heard[place] = now;
        if self.suspects.contains(q) {
            self.suspects.remove(q);
            self.bound[place] = grown(self.bound[place], self.numbers.grow, horizon);
            note_that(out, Note::Trust { layer: 1, who: q })?;
        }
        Ok(())
    }

    /// Tells all others that the process is alive, whoever is watched, and asks for the next beat.
    #[inline(never)]
    #[tactic(auto, using(std::proofs::Common::append_assoc))]
    fn beat(&self, out: &mut Vec<Action>) -> Result<(), AllocError>
        ensures { OnOk result (out.new.items ≡ out.old.items ++ beats_of self.now) }
    {
        let opening = &self.opening;
        send_to_others(out, opening.processes, opening.own, &Payload::Alive)?;
        wake_after(out, self.numbers.period, Tag::Beat)
    }

    /// Takes one input. After an `Err` the tables are of no use.
    #[inline(always)]
    #[tactic(auto, using(std::proofs::Common::append_assoc))]
    fn step(&mut self, now: u32, input: &StepInput, out: &mut Vec<Action>) -> Result<(), AllocError>
        ensures state { OnOk result (state_of self.new ≡ (answer_of self.old now input.now).state) }
        ensures actions { OnOk result (out.new.items ≡ out.old.items ++ (answer_of self.old now input.now).actions) }

        ensures opening { self.new.opening ≡ self.old.opening }
        ensures numbers { self.new.numbers ≡ self.old.numbers }
        ensures failure { self.new.has_failed ≡ self.old.has_failed }
    {
        match input {
            StepInput::Start => {
                self.beat(out)?;
                wake_after(out, self.numbers.check, Tag::Check)
            }
            StepInput::Wake(Tag::Beat) => self.beat(out),
            StepInput::Wake(Tag::Check) => self.check(now, out),
            StepInput::Letter {
                sender,
                payload: Payload::Alive,
            } if self.watches(*sender) => self.hear(now, *sender, out),
            _ => Ok(()),
        }
    }
}

impl Detector for TimeoutDetector {
    ghost use Rattle.timeout_detector.specs.Inside.View.{lower_of};

    ghost lower = { lower_of };

    ghost has_failed = { λ d. d.has_failed };

    #[inline(always)]
    #[tactic(auto, unfolding(process_api::specs::React::react_lower, process_api::specs::Detector::step_detector))]
    fn take(
        &mut self,
        now: u32,
        input: &StepInput,
        out: &mut Vec<Action>,
    ) -> Result<(), AllocError> {
        if self.has_failed {
            return Err(AllocError);
        }
        // it stays true where the step answers `Err`
        self.has_failed = true;
        self.step(now, input, out)?;
        self.has_failed = false;
        Ok(())
    }

    fn suspects(&self) -> ProcSet {
        self.suspects.copy()
    }
}
