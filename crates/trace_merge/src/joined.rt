//! Entries that are joined one by one.
ghost use Rattle.std.specs.Prelude.{◌≡◌, ◌++◌, [], ◌∷◌, true, OnOk, IfErr, IsPermutation};
ghost use Rattle.trace_merge.specs.Parts.{IsInOrder};

use process_api::{Entry, RunError};

/// Entries, and whether their keys rise strictly, which is seen as each is joined.
#[derive(Drop)]
pub(crate) struct Joined {
    pub(crate) entries: Vec<Entry>,
    pub(crate) rises: bool,
    pub(crate) ghost seen: { rises ≡ true → IsInOrder entries.items },
}

/// Whether an entry comes after those of a list, where these rise.
#[inline(always)]
fn goes_on(entries: &[Entry], entry: &Entry) -> bool
    ensures { result ≡ true → IsInOrder entries.now → IsInOrder (entries.now ++ entry.now ∷ []) }
{
    match entries.last() {
        Some(last) => last.key.is_before(&entry.key),
        None => true,
    }
}

impl Joined {
    /// One entry more.
    #[inline(always)]
    pub(crate) fn push(&mut self, entry: Entry) -> Result<(), RunError>
        ensures more { OnOk result (self.new.entries.items ≡ self.old.entries.items ++ entry ∷ []) }
        ensures err { IfErr result (λ e. e ≡ RunError.Memory) }
    {
        self.rises = self.rises && goes_on(&self.entries, &entry);
        self.entries.push(entry)?;
        Ok(())
    }

    /// The entries, in the order of their keys.
    pub(crate) fn in_order(self) -> Vec<Entry>
        ensures order { IsInOrder result.items }
        ensures same { IsPermutation self.entries.items result.items }
    {
        let Joined { mut entries, rises } = self;
        if !rises {
            entries.sort_unstable_by_key(|entry| entry.key);
        }
        entries
    }
}
