//! Arguments that name a column which there isn't.
ghost use Rattle.std.specs.Prelude.{◌≡◌, IfOk, string_bytes};
ghost use Rattle.study_commands.specs.{WordRefusals.{is_like as is_like_to}, Inside.Private.{no_column_line}};

use diagnosis::edits_between;
use printable::Printable;
use std::alloc::{AllocError, Global};

/// Whether a name is so like a word that it is perhaps meant.
fn is_like(alloc: Global, word: &str, name: &str) -> Result<bool, AllocError>
    ensures { IfOk result (λ is. is ≡ is_like_to word.now name.now) }
{
    Ok(edits_between(alloc, word, name)? <= word.len().max(3) / 3)
}

/// The line of a word that names a column which there isn't, with the nearest name where that is perhaps meant.
pub(crate) fn line_of_unknown(
    alloc: Global,
    word: &str,
    nearest: &str,
) -> Result<String, AllocError>
    ensures { IfOk result (λ s. string_bytes s ≡ no_column_line word.now nearest.now) }
{
    let is_meant = is_like(alloc, word, nearest)?;
    let (word, nearest) = (Printable(word), Printable(nearest));
    if is_meant {
        format!(in alloc;
            "fdstudy: words: NoColumn: {word} (did you mean {nearest}? fdstudy sweep --help lists the columns)\n"
        )
    } else {
        format!(in alloc;
            "fdstudy: words: NoColumn: {word} (no name is like it; fdstudy sweep --help lists the columns)\n"
        )
    }
}
