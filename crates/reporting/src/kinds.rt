//! The names of kinds.
ghost use Rattle.std.specs.Prelude.{◌≡◌, ◌≤◌, length};
ghost use Rattle.reporting.specs.Rows.{kind_text};

use process_api::Kind;

/// The name of a kind: of 9 bytes at most.
pub fn name_of_kind(kind: Kind) -> &'static str
    ensures text { result.now ≡ kind_text kind }
    ensures short { length result.now ≤ 9 }
{
    match kind {
        Kind::Start => "start",
        Kind::Beat => "beat",
        Kind::Check => "check",
        Kind::Share => "share",
        Kind::Alive => "alive",
        Kind::Heartbeat => "heartbeat",
        Kind::Suspects => "suspects",
        Kind::Vector => "vector",
        Kind::Last => "last",
        Kind::Estimate => "estimate",
        Kind::Proposal => "proposal",
        Kind::Reply => "reply",
        Kind::Decide => "decide",
        Kind::Dead => "dead",
    }
}
