//! The outages of one link.
ghost use Rattle.std.specs.{Prelude.{◌≡◌, IfOk}, List.{list_any, Sorted.{IsNonDecreasingBy}}};
ghost use Rattle.scenario_record.specs.{Record.{covers}, Inside.Stretches.{AreStretchesOf}};

use crate::outage::Outage;
use std::alloc::{AllocError, Global};
use std::marker::Model;

/// The outages of one link, in the order of their tables. It is found in logarithmic time whether a tick is one of
/// them.
#[derive(Drop)]
pub struct LinkOutages {
    tables: Vec<Outage>,
    /// The same outages by rising begins, each lengthened to the end of any that begins before it.
    stretches: Vec<Outage>,
}

impl Model for LinkOutages {
    ghost use Rattle.std.specs.Prelude.{List};
    ghost use Rattle.scenario_record.specs.{Inside.Stretches.{AreStretchesOf}, declared.outage.Outage.{Outage}};

    ghost Value = { List Outage };

    ghost view = { λ o. o.tables.items };

    ghost invariant = { λ o. AreStretchesOf o.tables.items o.stretches.items };
}

/// Outages by rising begins, each lengthened to the end of any that begins before it.
fn lengthened(alloc: Global, sorted: &[Outage]) -> Result<Vec<Outage>, AllocError>
    requires { IsNonDecreasingBy (λ (o : Outage). o.begin) sorted.now }
    ensures { IfOk result (λ v. AreStretchesOf sorted.now v.items) }
{
    let mut stretches = Vec::with_capacity(alloc, sorted.len())?;
    let mut greatest = 0;
    for outage in sorted {
        greatest = outage.until.max(greatest);
        stretches.push(Outage {
            begin: outage.begin,
            until: greatest,
        })?;
    }
    Ok(stretches)
}

impl LinkOutages {
    /// Those of a link's tables.
    ///
    /// # Errors
    ///
    /// Where memory was refused.
    pub fn of(alloc: Global, tables: Vec<Outage>) -> Result<LinkOutages, AllocError>
        ensures { IfOk result (λ o. o ≡ tables.items) }
    {
        let mut sorted = Vec::from_slice(alloc, &tables)?;
        sorted.sort_unstable_by_key(|outage| outage.begin);
        let stretches = lengthened(alloc, &sorted)?;
        Ok(LinkOutages { tables, stretches })
    }

    /// The outages in the order of their tables.
    pub fn tables(&self) -> &[Outage]
        ensures { result.now ≡ self.now }
    {
        &self.tables
    }

    /// Whether a tick is one of an outage, from its `begin` and before its `until`. It stands apart, so that where no
    /// link has an outage a letter costs no call.
    #[inline(never)]
    pub fn covers(&self, tick: u32) -> bool
        ensures { result ≡ list_any (covers tick) self.now }
    {
        let begun = self
            .stretches
            .partition_point(|stretch| stretch.begin <= tick);
        begun > 0 && tick < self.stretches[begun - 1].until
    }
}
