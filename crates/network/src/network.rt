//! The contents of a network file.

use crate::group::{Group, LinkSet};
use crate::rhythm::Rhythm;
use scenario_record::{Link, Outage};

/// What a network file says, by the kinds of its tables, each in the order of the file. What [`draw`](crate::draw) asks
/// of its numbers is `IsNetwork` (`specs/Ranges.antt`).
#[derive(Drop)]
pub struct Network {
    /// The tables of `links`.
    pub links: Vec<LinkTable>,
    /// The tables of `bursts`.
    pub bursts: Vec<Burst>,
    /// The tables of `cuts`.
    pub cuts: Vec<Cut>,
    /// The tables of `pauses`.
    pub pauses: Vec<Pause>,
    /// The tables of `replays`.
    pub replays: Vec<Replay>,
}

/// What a set of links does to letters, in place of what the scenario's file and earlier tables say.
#[derive(Drop)]
pub struct LinkTable {
    /// The links.
    pub links: LinkSet,
    /// What each of them does to letters.
    pub link: Link,
}

/// Links that each by itself lose for a while all letters that are sent on them.
#[derive(Drop)]
pub struct Burst {
    /// The links, each of which is a source.
    pub links: LinkSet,
    /// When.
    pub rhythm: Rhythm,
}

/// Two groups between which all links, both ways, lose for a while all letters, at once.
#[derive(Drop)]
pub struct Cut {
    /// The one group.
    pub one: Group,
    /// The other. In a network file it has no member of the one.
    pub other: Group,
    /// When.
    pub rhythm: Rhythm,
}

/// Processes that each by itself send nothing for a while: all links from it lose all letters, at once.
#[derive(Drop)]
pub struct Pause {
    /// The processes, each of which is a source.
    pub processes: Group,
    /// When.
    pub rhythm: Rhythm,
}

/// Links that each lose letters as it was recorded once, from a place of the record that is drawn.
#[derive(Drop)]
pub struct Replay {
    /// The links, each of which is a source.
    pub links: LinkSet,
    /// How many ticks the record lasts, 1 to 10,000,000; after them it begins anew.
    pub lasts: u32,
    /// The outages of the record, at least one, each within it. They stand by rising begin, and those of one begin by
    /// rising end (`IsReplay`).
    pub outages: Vec<Outage>,
}
