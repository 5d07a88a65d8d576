//! Records that are played again and again.
ghost use Rattle.std.specs.{Prelude.{◌≡◌, ◌<◌, ◌≤◌, ◌++◌, ◌+◌, ◌^◌, OnOk}, Option.{option_to_list}};
ghost use Rattle.network.specs.{Drawn.{OnTooMany, on_each, left_of, replayed_in}, Ranges.{IsReplay}};

use crate::error::DrawError;
use crate::group::Ends;
use crate::network::Replay;
use crate::outages::Drawn;
use crate::source::Source;
use crate::words::SourceWords;
use scenario_record::Outage;

/// What is left, from tick 0 to the horizon, of an outage of a record in a turn that began at `turn` ticks minus
/// `place`.
fn left_of(outage: Outage, turn: u32, place: u32, horizon: u32) -> Option<Outage>
    requires begin { outage.begin + turn < 2 ^ 32 }
    requires until { outage.until + turn < 2 ^ 32 }
    ensures { option_to_list result ≡ left_of turn place horizon outage }
{
    let begin = (outage.begin + turn).saturating_sub(place);
    let until = (outage.until + turn).saturating_sub(place).min(horizon);
    if begin < until {
        Some(Outage { begin, until })
    } else {
        None
    }
}

impl Drawn {
    /// What is left of an outage, if anything is, for each of these links.
    #[tactic(auto, using(crate::proofs::Adding::one_each))]
    fn push_left(&mut self, links: &[Ends], left: Option<Outage>) -> Result<(), DrawError>
        ensures ok { OnOk result (self.new ≡ self.old ++ on_each links.now (option_to_list left)) }
        ensures full { OnTooMany result (self.old ++ on_each links.now (option_to_list left)) }
    {
        match left {
            Some(outage) => self.push_each(links, outage),
            None => Ok(()),
        }
    }
}

impl Replay {
    /// Adds the outages that links have at once of one turn of the record, which began at `turn` ticks minus `place`.
    fn draw_turn(
        &self,
        links: &[Ends],
        turn: u32,
        place: u32,
        horizon: u32,
        drawn: &mut Drawn,
    ) -> Result<(), DrawError>
        requires record_of_it { IsReplay self.now }
        requires begins { turn ≤ 20000000 }
        ensures ok { OnOk result
            (drawn.new ≡ drawn.old ++ on_each links.now (replayed_in self.now.outages.items turn place horizon)) }
        ensures full { OnTooMany result
            (drawn.old ++ on_each links.now (replayed_in self.now.outages.items turn place horizon)) }
    {
        for outage in &self.outages {
            drawn.push_left(links, left_of(*outage, turn, place, horizon))?;
        }
        Ok(())
    }
}

impl Source for Replay {
    ghost use Rattle.network.specs.{Ranges.{IsReplay}, Drawn.{replayed}};

    ghost is_in_range = { IsReplay };

    ghost outages = { replayed };

    fn draw_on(
        &self,
        links: &[Ends],
        horizon: u32,
        words: &mut SourceWords,
        drawn: &mut Drawn,
    ) -> Result<(), DrawError> {
        let place = words.next() % self.lasts;
        for turn in 0..(horizon + place) / self.lasts + 1 {
            self.draw_turn(links, turn * self.lasts, place, horizon, drawn)?;
        }
        Ok(())
    }
}
