//! The steps of the reduction itself.
ghost use Rattle.std.specs.Prelude.{◌≡◌, ◌≤◌, ◌++◌, false, OnOk, map};
ghost use Rattle.std.specs.FinSet as set;

use process_api::{
    Action, Payload, Pid, ProcSet, StepInput, Tag, note_changes, send_to_all, wake_after,
};
use scenario_record::Opening;
use std::alloc::AllocError;

/// One process's part of the reduction.
#[derive(Drop)]
pub struct Gathering {
    /// What the process opens with: among others its own number, and how many processes there are.
    pub opening: Opening,
    /// Ticks between two shares, at least 1.
    pub period: u32,
    /// Whom the process suspects on layer 2: never itself.
    pub output: ProcSet,
    ghost paced: { 1 ≤ period },
    ghost not_itself: { set.contains output opening.own ≡ false },
}

impl Gathering {
    ghost use Rattle.reduction.specs.Inside.Parts.{state_of, gathered_by, changes_by, answer_of};

    /// Whom the process suspects once it has the suspects of a sender, which is alive.
    fn gathered(&self, sender: Pid, shared: &ProcSet) -> ProcSet
        ensures value { result ≡ gathered_by self.now sender shared.now }
        ensures not_itself { set.contains result self.now.opening.own ≡ false }
    {
        let mut output = self.output.union(&shared.up_to(self.opening.processes));
        output.remove(sender);
        output.remove(self.opening.own);
        output
    }

    /// Takes the suspects that a sender shared, and notes how the own ones change. After an `Err`, `out` may hold
    /// anything.
    fn gather(
        &mut self,
        sender: Pid,
        shared: &ProcSet,
        out: &mut Vec<Action>,
    ) -> Result<(), AllocError>
        ensures opening { self.new.opening ≡ self.old.opening }
        ensures period { self.new.period ≡ self.old.period }
        ensures output { OnOk result (self.new.output ≡ gathered_by self.old sender shared.now) }
        ensures notes { OnOk result (
            out.new.items ≡ out.old.items ++ map Action.Note (changes_by self.old sender shared.now)) }
    {
        let output = self.gathered(sender, shared);
        note_changes(out, 2, self.opening.processes, &self.output, &output)?;
        self.output = output;
        Ok(())
    }

    /// Takes one input, with whom the detector below suspects after it. After an `Err`, `out` may hold anything.
    #[tactic(auto, using(std::proofs::Common::append_assoc))]
    pub fn step(
        &mut self,
        input: &StepInput,
        suspects: &ProcSet,
        out: &mut Vec<Action>,
    ) -> Result<(), AllocError>
        ensures opening { self.new.opening ≡ self.old.opening }
        ensures state { OnOk result (state_of self.new ≡ (answer_of self.old suspects.now input.now).state) }
        ensures actions { OnOk result (
            out.new.items ≡ out.old.items ++ (answer_of self.old suspects.now input.now).actions) }
    {
        match input {
            StepInput::Start => wake_after(out, self.period, Tag::Share),
            StepInput::Wake(Tag::Share) => {
                let shared = suspects.copy();
                send_to_all(out, self.opening.processes, &Payload::Suspects(shared))?;
                wake_after(out, self.period, Tag::Share)
            }
            StepInput::Letter {
                sender,
                payload: Payload::Suspects(shared),
            } => self.gather(*sender, shared, out),
            _ => Ok(()),
        }
    }
}
