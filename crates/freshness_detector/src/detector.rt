//! The detector of one process.
ghost use Rattle.std.specs.Prelude.{◌≡◌, ◌≤◌, ◌+◌, ◌++◌, ◌&&◌, nat_le, false, true, IsTrue, IfOk, OnOk, map, vec_len};
ghost use Rattle.std.specs.FinSet as set;
ghost use Rattle.process_api.specs.{Detector.{is_freshness}, declared.numbers.DetectorNumbers.TheVariants.{Freshness}};
ghost use Rattle.scenario_record.specs.{Ranges.{AreFreshnessInRange}, Opening.{base_of}};
ghost use Rattle.freshness_detector.specs.Inside.Tables.{state_by, AreSuspects};

use crate::count::{greatest, has_come, next};
use process_api::{
    Action, Detector, DetectorNumbers, FreshnessNumbers, Note, Payload, Pid, ProcSet, StepInput,
    Tag, note_changes, note_that, send_to_others, wake_after,
};
use scenario_record::Opening;
use std::alloc::{AllocError, Global};

/// The detector with freshness points of one process (Chen, Toueg and Aguilera, IEEE Transactions on Computers 51(5),
/// 2002).
///
/// It counts the heartbeats that it sent and the points that it reached. For each other process it keeps the greatest
/// number of its heartbeats that came, and whether it is suspected.
#[derive(Drop)]
pub struct FreshnessDetector {
    opening: Opening,
    numbers: FreshnessNumbers,
    // the last heartbeat; 0 before the first
    sent: u64,
    // the last point; 0 before the first
    reached: u64,
    // by process; place 0 is unused
    latest: Vec<Option<u64>>,
    suspects: ProcSet,
    has_failed: bool,
    ghost kind: { opening.detector ≡ Freshness numbers },
    ghost ranges: { AreFreshnessInRange numbers },
    ghost places: { vec_len latest ≡ opening.processes + 1 },
    ghost current: { AreSuspects opening numbers (state_by sent reached latest.items) suspects },
}

impl FreshnessDetector {
    ghost use Rattle.freshness_detector.specs.Inside.View.{state_of, is_watched, is_stale_at, suspected_at, checked_by, heard_by, noted_by, next_check_of, answer_of};

    /// The detector with which a process opens that has the numbers of this kind: it sent no heartbeat, reached no
    /// point and suspects nobody. Its table has a place for each process, and nothing else in it needs memory.
    pub fn open(alloc: Global, opening: &Opening) -> Result<FreshnessDetector, AllocError>
        requires kind { IsTrue (is_freshness opening.now.detector) }
        ensures opens { IfOk result (λ d. ⟦<FreshnessDetector as Detector>⟧.lower d ≡ base_of opening.now) }
        ensures alive { IfOk result (λ d. ⟦<FreshnessDetector as Detector>⟧.has_failed d ≡ false) }
    {
        let DetectorNumbers::Freshness(numbers) = opening.detector else {
            unreachable!()
        };
        Ok(FreshnessDetector {
            opening: *opening,
            numbers,
            sent: 0,
            reached: 0,
            latest: vec![in alloc; None; usize::from(opening.processes) + 1]?,
            suspects: ProcSet::new(),
            has_failed: false,
        })
    }

    /// Whether a process is watched: another of 1 to n, and under `Watch::Next` the next one in their circle.
    fn watches(&self, q: Pid) -> bool
        ensures value { result ≡ is_watched self.now q }
        ensures known { result ≡ true → q ≤ self.now.opening.processes }
    {
        self.numbers
            .watch
            .takes_in(self.opening.own, self.opening.processes, q)
    }

    /// Whether a process is suspected once a point is reached: it is watched, and no heartbeat of the point's number or
    /// later came from it.
    fn is_stale(&self, point: u64, q: Pid) -> bool
        requires { q ≤ self.now.opening.processes }
        ensures { result ≡ is_stale_at self.now point q }
    {
        self.watches(q) && 1 <= point && !has_come(self.latest[usize::from(q.number())], point)
    }

    /// Whom it suspects once a point is reached.
    fn suspects_at(&self, point: u64) -> ProcSet
        ensures { result ≡ suspected_at self.now point }
    {
        let mut suspects = ProcSet::new();
        for before in 0..self.opening.processes {
            let q = Pid::after(before);
            if self.is_stale(point, q) {
                suspects.insert(q);
            }
        }
        suspects
    }

    /// Reaches the next point, and asks for the one after it.
    fn check(&mut self, out: &mut Vec<Action>) -> Result<(), AllocError>
        ensures state { OnOk result (state_of self.new ≡ checked_by self.old) }
        ensures actions { OnOk result (
            out.new.items
            ≡ out.old.items
            ++ (noted_by self.old (checked_by self.old) ++ next_check_of self.old)) }

        ensures opening { self.new.opening ≡ self.old.opening }
        ensures numbers { self.new.numbers ≡ self.old.numbers }
        ensures failure { self.new.has_failed ≡ self.old.has_failed }
    {
        let point = next(self.reached);
        let suspects = self.suspects_at(point);
        note_changes(out, 1, self.opening.processes, &self.suspects, &suspects)?;
        self.reached = point;
        self.suspects = suspects;
        wake_after(out, self.numbers.eta, Tag::Check)
    }

    /// Whether a heartbeat ends a suspicion: its sender is suspected, and it is as late as the last point or later.
    fn ends_suspicion(&self, q: Pid, number: u64) -> bool
        ensures { result ≡ (nat_le self.now.reached number && set.contains self.now.suspects q) }
    {
        self.reached <= number && self.suspects.contains(q)
    }

    /// Hears a heartbeat of a process that is watched. If the process is suspected, and the heartbeat is as late as the
    /// last point or later, it is trusted again, with its note.
    fn hear(&mut self, q: Pid, number: u64, out: &mut Vec<Action>) -> Result<(), AllocError>
        requires watched { is_watched self.old q ≡ true }
        requires known { q ≤ self.old.opening.processes }

        ensures state { OnOk result (state_of self.new ≡ heard_by self.old q number) }
        ensures actions { OnOk result (
            out.new.items ≡ out.old.items ++ noted_by self.old (heard_by self.old q number)) }

        ensures opening { self.new.opening ≡ self.old.opening }
        ensures numbers { self.new.numbers ≡ self.old.numbers }
        ensures failure { self.new.has_failed ≡ self.old.has_failed }
    {
        let is_trusted_again = self.ends_suspicion(q, number);
        let place = usize::from(q.number());
        self.latest[place] = greatest(self.latest[place], number);
        if is_trusted_again {
            self.suspects.remove(q);
            note_that(out, Note::Trust { layer: 1, who: q })?;
        }
        Ok(())
    }

    /// Takes one input. After an `Err` the tables are of no use.
    #[tactic(auto, using(std::proofs::Common::append_assoc))]
    fn step(&mut self, input: &StepInput, out: &mut Vec<Action>) -> Result<(), AllocError>
        ensures state { OnOk result (state_of self.new ≡ (answer_of self.old input.now).state) }
        ensures actions { OnOk result (out.new.items ≡ out.old.items ++ (answer_of self.old input.now).actions) }

        ensures opening { self.new.opening ≡ self.old.opening }
        ensures numbers { self.new.numbers ≡ self.old.numbers }
        ensures failure { self.new.has_failed ≡ self.old.has_failed }
    {
        let numbers = self.numbers;
        match input {
            StepInput::Start => {
                wake_after(out, numbers.eta, Tag::Beat)?;
                wake_after(out, numbers.eta + numbers.delta, Tag::Check)
            }
            StepInput::Wake(Tag::Beat) => {
                let number = next(self.sent);
                let opening = &self.opening;
                send_to_others(
                    out,
                    opening.processes,
                    opening.own,
                    &Payload::Heartbeat { number },
                )?;
                self.sent = number;
                wake_after(out, numbers.eta, Tag::Beat)
            }
            StepInput::Wake(Tag::Check) => self.check(out),
            StepInput::Letter { sender, payload } => match payload {
                Payload::Heartbeat { number } if self.watches(*sender) => {
                    self.hear(*sender, *number, out)
                }
                _ => Ok(()),
            },
            StepInput::Wake(_) => Ok(()),
        }
    }
}

impl Detector for FreshnessDetector {
    ghost use Rattle.freshness_detector.specs.Inside.View.{lower_of};

    ghost lower = { lower_of };

    ghost has_failed = { λ d. d.has_failed };

    #[tactic(auto, unfolding(process_api::specs::React::react_lower, process_api::specs::Detector::step_detector))]
    fn take(
        &mut self,
        _now: u32,
        input: &StepInput,
        out: &mut Vec<Action>,
    ) -> Result<(), AllocError> {
        if self.has_failed {
            return Err(AllocError);
        }
        // it stays true where the step answers `Err`
        self.has_failed = true;
        self.step(input, out)?;
        self.has_failed = false;
        Ok(())
    }

    fn suspects(&self) -> ProcSet {
        self.suspects.copy()
    }
}
