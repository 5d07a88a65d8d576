//! One pair of processes, as a trace goes by.
ghost use Rattle.std.specs.Prelude.{◌≡◌, ℕ, Bool};
ghost use Rattle.judges.specs.{Turns.{noted_turns, turn_of, all_turned, kept_at, opened, turned}, declared.track.Track.{Track}};

use crate::track::Track;
use process_api::{Note, Pid};

/// What is kept of a pair of processes, of the ticks that are behind.
pub trait Gauge: Copy {
    ghost passed: { (until : ℕ) → (suspected : Bool) → (end : ℕ) → Self → Self };

    /// What a judge sees of it.
    ghost seen: { Self → Track };

    /// One that nothing passed.
    ghost fresh: { Self };

    /// From the first tick that isn't behind up to another there is suspicion, or there is none. Below `end` suspicion
    /// is a mistake.
    fn pass(&mut self, until: u32, suspected: bool, end: u32)
        ensures { self.new ≡ passed until suspected end self.old };

    /// What a judge sees of it.
    fn track(&self) -> Track
        ensures { result ≡ seen self.now };
}

/// Whether an observer suspects a subject now, and what is kept of the ticks before.
#[derive(Clone, Copy)]
pub struct Pair<K> {
    /// Below this tick a suspicion is a mistake: neither process has crashed yet.
    pub end: u32,
    /// Whether there is suspicion now.
    pub current: bool,
    /// What is kept of the ticks behind.
    pub kept: K,
}

/// Whom a note says that its process suspects on a layer from now on (`true`), or suspects no longer (`false`).
pub fn turn_of(layer: u8, note: &Note) -> Option<(Pid, bool)>
    ensures { result ≡ turn_of layer note.now }
{
    match *note {
        Note::Suspect { layer: of, who } => {
            if of == layer {
                return Some((who, true));
            }
        }
        Note::Trust { layer: of, who } => {
            if of == layer {
                return Some((who, false));
            }
        }
        Note::Round(_) | Note::Decided(_) | Note::NoValue => {}
    }
    None
}

impl<K: Gauge> Pair<K> {
    /// Nothing is suspected yet.
    pub fn open(end: u32, kept: K) -> Pair<K>
        ensures { result ≡ opened end kept }
    {
        Pair {
            end,
            current: false,
            kept,
        }
    }

    /// At this tick suspicion begins or ends.
    pub fn turn(&mut self, tick: u32, suspected: bool)
        ensures { self.new ≡ turned K.passed tick suspected self.old }
    {
        if suspected != self.current {
            self.kept.pass(tick, self.current, self.end);
            self.current = suspected;
        }
    }

    /// The notes that the observer takes at a tick.
    pub fn note_all(&mut self, layer: u8, subject: Pid, tick: u32, notes: &[Note])
        ensures { self.new ≡ all_turned K.passed self.old (noted_turns layer subject tick notes.now) }
    {
        for note in notes {
            if let Some((who, suspected)) = turn_of(layer, note) {
                if who == subject {
                    self.turn(tick, suspected);
                }
            }
        }
    }

    /// What is kept, once all ticks below a horizon are behind.
    pub fn close(&self, horizon: u32) -> K
        ensures { result ≡ kept_at K.passed horizon self.now }
    {
        let mut kept = self.kept;
        kept.pass(horizon, self.current, self.end);
        kept
    }
}
