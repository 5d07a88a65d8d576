//! Gaps and lengths in turn.

use crate::error::DrawError;
use crate::group::Ends;
use crate::outages::Drawn;
use crate::source::Source;
use crate::spell::Spell;
use crate::words::SourceWords;
use scenario_record::Outage;

/// How the episodes of a source follow one another: a gap, a length, a gap, a length, and so on.
#[derive(Drop)]
pub struct Rhythm {
    /// From the end of an episode to the begin of the next.
    pub gap: Spell,
    /// From the begin of an episode to its end.
    pub length: Spell,
}

impl Source for Rhythm {
    ghost use Rattle.network.specs.{Drawn.{episodes}, Ranges.{IsRhythm}};

    ghost is_in_range = { IsRhythm };

    ghost outages = { episodes };

    fn draw_on(
        &self,
        links: &[Ends],
        horizon: u32,
        words: &mut SourceWords,
        drawn: &mut Drawn,
    ) -> Result<(), DrawError> {
        let mut begin = words.first_ticks(&self.gap);
        while begin < horizon {
            let until = begin + words.ticks(&self.length);
            let end = until.min(horizon);
            drawn.push_each(links, Outage { begin, until: end })?;
            begin = until + words.ticks(&self.gap);
        }
        Ok(())
    }
}
