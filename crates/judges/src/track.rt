//! The state that a judge keeps of one pair as a trace goes by.
ghost use Rattle.std.specs.Prelude.{◌≡◌};
ghost use Rattle.judges.specs.Track.{new_track, passed, suspected_from, trusted_from};

use crate::pair::Gauge;

/// Whether one process suspected another at last, and since when.
#[derive(Clone, Copy)]
pub struct Track {
    /// All ticks below this one are behind.
    pub tick: u32,
    /// Whether there was suspicion at the last of the ticks behind.
    pub was: bool,
    /// The first of the ticks for which `was` stood without a break.
    pub since: u32,
    /// Whether a suspicion at one of the ticks behind was a mistake.
    pub mistaken: bool,
}

impl Track {
    /// No tick is behind.
    pub(crate) fn new() -> Track
        ensures { result ≡ new_track }
    {
        Track {
            tick: 0,
            was: false,
            since: 0,
            mistaken: false,
        }
    }

    /// From which tick on there was suspicion, if there was at last.
    pub(crate) fn suspected_from(&self) -> Option<u32>
        ensures { result ≡ suspected_from self.now }
    {
        if self.was { Some(self.since) } else { None }
    }

    /// From which tick on there was trust, if there was at last.
    pub(crate) fn trusted_from(&self) -> Option<u32>
        ensures { result ≡ trusted_from self.now }
    {
        if self.was { None } else { Some(self.since) }
    }
}

impl Gauge for Track {
    ghost passed = { passed };

    ghost seen = { λ t. t };

    ghost fresh = { new_track };

    fn pass(&mut self, until: u32, suspected: bool, end: u32) {
        if self.tick < until {
            if suspected != self.was {
                self.since = self.tick;
            }
            if suspected && self.tick < end {
                self.mistaken = true;
            }
            self.was = suspected;
            self.tick = until;
        }
    }

    fn track(&self) -> Track {
        *self
    }
}
