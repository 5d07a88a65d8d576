//! Kinds of sources.
ghost use Rattle.std.specs.Prelude.{◌≡◌, ◌<◌, ◌≤◌, ◌^◌};
ghost use Rattle.network.specs.Words.{AreAboveLinks, AreApart, AreLinksApart, AreProcessesApart, kind_number, most_tables, stream_number, stream_of};

use crate::group::Ends;

/// The kinds of sources, by the tables that have them.
#[derive(Clone, Copy, Debug, PartialEq, Eq)]
pub enum Kind {
    /// `bursts`.
    Burst,
    /// `cuts`.
    Cut,
    /// `pauses`.
    Pause,
    /// `replays`.
    Replay,
}

impl Kind {
    /// The kind's number, 0 to 3.
    fn number(self) -> u64
        ensures value { result ≡ kind_number self }
        ensures small { result ≤ 3 }
    {
        match self {
            Kind::Burst => 0,
            Kind::Cut => 1,
            Kind::Pause => 2,
            Kind::Replay => 3,
        }
    }

    /// The number of the stream of a source of this kind, by the place of its table among those of the kind, from 0,
    /// and by its own place in the table.
    pub(crate) fn stream(self, table: usize, place: u64) -> u64
        requires few { table < most_tables }
        requires within { place < 2 ^ 32 }
        ensures { result ≡ stream_number self table place }
    {
        (1 + 4 * table as u64 + self.number()) * (1 << 32) + place
    }
}

/// The place of a link's source in its table.
pub(crate) fn link_place(ends: &Ends) -> u64
    ensures value { result ≡ stream_of ends.now.from ends.now.to }
    ensures within { result < 2 ^ 32 }
{
    (u64::from(ends.from.number()) - 1) * 65536 + (u64::from(ends.to.number()) - 1)
}

/// No two sources draw from one stream, and no source from a stream of a link: sources of one stream have one place in
/// one table, and one place is that of one link, or of one process.
pub fn law_streams()
    ensures apart { AreApart }
    ensures links { AreLinksApart }
    ensures processes { AreProcessesApart }
    ensures above { AreAboveLinks }
{}
