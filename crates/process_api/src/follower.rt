//! Followers of a run, which are told its entries.
ghost use Rattle.std.specs.Prelude.{◌≡◌, ◌++◌, ◌∷◌, [], List, OnOk};
ghost use Rattle.process_api.specs.Order.{EntryRecord};

use crate::entry::Entry;
use std::alloc::AllocError;

/// Is told the entries of a run as they come, so that no trace has to be held.
pub trait Follower {
    /// The first of the two, after it was told these entries in this order, is the second.
    ghost followed: { Self → Self → List EntryRecord → Type 0 };

    /// One more entry.
    ///
    /// # Errors
    ///
    /// `AllocError` where memory was refused. The follower is good for nothing then.
    fn follow(&mut self, entry: &Entry) -> Result<(), AllocError>
        ensures { OnOk result ((first : Self) (told : List EntryRecord)
            → followed first self.old told → followed first self.new (told ++ entry.now ∷ [])) };
}

/// Keeps nothing.
impl Follower for () {
    ghost followed = { λ _ _ _. Unit {0} };

    #[inline(always)]
    fn follow(&mut self, _entry: &Entry) -> Result<(), AllocError> {
        Ok(())
    }
}

/// Keeps the entries.
impl Follower for Vec<Entry> {
    ghost followed = { λ _ kept told. kept.items ≡ told };

    #[inline(always)]
    fn follow(&mut self, entry: &Entry) -> Result<(), AllocError> {
        let notes = Vec::from_slice(*entry.notes.allocator(), &entry.notes)?;
        self.push(Entry {
            key: entry.key,
            kind: entry.kind,
            sent: entry.sent,
            lost: entry.lost,
            notes,
        })?;
        Ok(())
    }
}

impl<F: Follower> Follower for Option<F> {
    ghost use Rattle.process_api.specs.Answer.{HasFollowedWhere};

    ghost followed = { HasFollowedWhere F.followed };

    #[inline(always)]
    fn follow(&mut self, entry: &Entry) -> Result<(), AllocError> {
        match self {
            None => Ok(()),
            Some(follower) => follower.follow(entry),
        }
    }
}

impl<F: Follower, G: Follower> Follower for (F, G) {
    ghost followed = { λ first now told. F.followed first.0 now.0 told × G.followed first.1 now.1 told };

    #[inline(always)]
    fn follow(&mut self, entry: &Entry) -> Result<(), AllocError> {
        self.0.follow(entry)?;
        self.1.follow(entry)
    }
}

/// Tells a follower these entries, in their order.
///
/// # Errors
///
/// `AllocError` where memory was refused. The follower is good for nothing then.
pub fn follow_all<F: Follower>(follower: &mut F, entries: &[Entry]) -> Result<(), AllocError>
    ensures { OnOk result ((first : F) (told : List EntryRecord)
        → F.followed first follower.old told → F.followed first follower.new (told ++ entries.now)) }
{
    for entry in entries {
        follower.follow(entry)?;
    }
    Ok(())
}
