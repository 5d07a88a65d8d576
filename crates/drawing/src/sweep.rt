//! The bars of a pair, as its notes go by.
ghost use Rattle.std.specs.Prelude.{◌≡◌, ◌≤◌, ℕ, Bool, false, [], ◌∷◌, max, OnOk, IfOk};
ghost use Rattle.judges.specs.Turns.{entry_turns, noted_turns, turn_of, turns_at};

use crate::bars::Bar;
use judges::turn_of;
use process_api::{Entry, Note, Pid};
use std::alloc::{AllocError, Global};

/// The stretches of one pair, of the ticks that are behind.
#[derive(Drop)]
pub(crate) struct Sweep {
    /// All ticks asked for that are below this one are behind.
    tick: u32,
    /// Whether there is suspicion now.
    current: bool,
    /// The first tick of the stretch that reached the last tick behind.
    running: Option<u32>,
    /// The stretches that ended before.
    ended: Vec<Bar>,
}

impl Sweep {
    ghost use Rattle.drawing.specs.Inside.Sweeping.{IsPassed, IsSwept, SweptOn, stretches};

    /// No tick is behind, and nothing is suspected.
    pub fn open(alloc: Global, from: u32) -> Sweep
        ensures swept { IsSwept (λ _. false) from result }
        ensures tick { result.tick ≡ from }
    {
        Sweep {
            tick: from,
            current: false,
            running: None,
            ended: Vec::new(alloc),
        }
    }

    /// Up to a tick all stays as it is.
    fn pass(&mut self, until: u32) -> Result<(), AllocError>
        ensures { OnOk result (IsPassed until self.old self.new) }
    {
        if self.tick < until {
            match self.running {
                None => {
                    if self.current {
                        self.running = Some(self.tick);
                    }
                }
                Some(begin) => {
                    if !self.current {
                        let end = self.tick;
                        self.ended.push(Bar { begin, end })?;
                        self.running = None;
                    }
                }
            }
            self.tick = until;
        }
        Ok(())
    }

    /// From a tick on there is suspicion, or there is none.
    fn turn(&mut self, tick: u32, suspected: bool) -> Result<(), AllocError>
        ensures swept { OnOk result (
            SweptOn (record { tick = tick; suspected = suspected } ∷ []) tick self.old self.new) }
        ensures tick { OnOk result (self.new.tick ≡ max self.old.tick tick) }
    {
        self.pass(tick)?;
        self.current = suspected;
        Ok(())
    }

    /// One more note of the observer.
    fn note(&mut self, layer: u8, subject: Pid, tick: u32, note: &Note) -> Result<(), AllocError>
        ensures swept { OnOk result (
            SweptOn (turns_at subject tick (turn_of layer note.now)) tick self.old self.new) }
        ensures tick { OnOk result (self.new.tick ≤ max self.old.tick tick) }
    {
        if let Some((who, suspected)) = turn_of(layer, note) {
            if who == subject {
                return self.turn(tick, suspected);
            }
        }
        Ok(())
    }

    /// The notes that the observer takes at a tick.
    fn note_all(
        &mut self,
        layer: u8,
        subject: Pid,
        tick: u32,
        notes: &[Note],
    ) -> Result<(), AllocError>
        ensures swept { OnOk result (
            SweptOn (noted_turns layer subject tick notes.now) tick self.old self.new) }
        ensures tick { OnOk result (self.new.tick ≤ max self.old.tick tick) }
    {
        for note in notes {
            self.note(layer, subject, tick, note)?;
        }
        Ok(())
    }

    /// One more entry of a trace. Only those of the observer below the end tell.
    pub fn feed(
        &mut self,
        layer: u8,
        observer: Pid,
        subject: Pid,
        until: u32,
        entry: &Entry,
    ) -> Result<(), AllocError>
        ensures swept { OnOk result (
            SweptOn (entry_turns layer observer subject until entry.now) entry.now.key.tick self.old self.new) }
        ensures tick { OnOk result (self.new.tick ≤ max self.old.tick entry.now.key.tick) }
        ensures below { OnOk result (self.new.tick ≤ max self.old.tick until) }
    {
        if entry.key.receiver == observer && entry.key.tick < until {
            return self.note_all(layer, subject, entry.key.tick, &entry.notes);
        }
        Ok(())
    }

    /// All stretches, as the ticks end.
    pub fn close(mut self, until: u32) -> Result<Vec<Bar>, AllocError>
        ensures { IfOk result (λ bars. (test : ℕ → Bool) (from : ℕ) → IsSwept test from self
            → self.tick ≤ max from until → bars.items ≡ stretches test from until) }
    {
        self.pass(until)?;
        if let Some(begin) = self.running {
            self.ended.push(Bar { begin, end: until })?;
        }
        Ok(self.ended)
    }
}
