//! What a source draws.
ghost use Rattle.std.specs.Prelude.{◌≡◌, ◌≤◌, ◌++◌, ℕ, List, OnOk};
ghost use Rattle.{process_api.specs.Place.{last_tick}, scenario_record.specs.declared.outage.Outage.{Outage}};
ghost use Rattle.network.specs.{Drawn.{OnTooMany, on_each}, Words.{Words}, Inside.Coming.{to_come}};

use crate::error::DrawError;
use crate::group::Ends;
use crate::outages::Drawn;
use crate::words::SourceWords;

/// Says when a source has outages: a rhythm, or a record that is played.
pub(crate) trait Source {
    /// Its numbers are in their ranges.
    ghost is_in_range: { Self → Type 0 };

    /// Its outages up to a horizon, by the words that it draws.
    ghost outages: { Self → Words → (horizon : ℕ) → List Outage };

    /// Adds the outages that links have at once, up to the horizon.
    fn draw_on(
        &self,
        links: &[Ends],
        horizon: u32,
        words: &mut SourceWords,
        drawn: &mut Drawn,
    ) -> Result<(), DrawError>
        requires ranges { is_in_range self.now }
        requires ends { horizon ≤ last_tick }
        ensures ok { OnOk result
            (drawn.new ≡ drawn.old ++ on_each links.now (outages self.now (to_come words.old) horizon)) }
        ensures full { OnTooMany result
            (drawn.old ++ on_each links.now (outages self.now (to_come words.old) horizon)) };
}
