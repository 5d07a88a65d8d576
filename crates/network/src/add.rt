//! Outages of several links at once, and the course of a run.
ghost use Rattle.std.specs.Prelude.{◌≡◌, ◌≤◌, ◌++◌, map, OnOk};
ghost use Rattle.{process_api.specs.Place.{last_tick, most_processes}, network.specs.Drawn.{OnTooMany, outage_on}};

use crate::error::DrawError;
use crate::group::Ends;
use crate::outages::Drawn;
use scenario::LinkOutage;
use scenario_record::Outage;
use std::alloc::Global;

/// What of a run its outages depend on, besides the network.
#[derive(Clone, Copy)]
pub(crate) struct Course {
    /// Where memory comes from.
    pub(crate) alloc: Global,
    /// How many processes there are.
    pub(crate) processes: u16,
    /// The tick at which the run ends.
    pub(crate) horizon: u32,
    /// The seed of all random streams.
    pub(crate) seed: u64,
    ghost few: { processes ≤ most_processes },
    ghost ends: { horizon ≤ last_tick },
}

impl Drawn {
    /// An outage of each of these links.
    pub(crate) fn push_each(&mut self, links: &[Ends], outage: Outage) -> Result<(), DrawError>
        ensures ok { OnOk result (self.new ≡ self.old ++ map (outage_on outage) links.now) }
        ensures full { OnTooMany result (self.old ++ map (outage_on outage) links.now) }
    {
        for link in links {
            self.push(LinkOutage {
                from: link.from,
                to: link.to,
                begin: outage.begin,
                until: outage.until,
            })?;
        }
        Ok(())
    }
}
