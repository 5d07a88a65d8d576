//! Processes, as arguments of a command line.
ghost use Rattle.std.specs.Prelude.{◌≡◌};
ghost use Rattle.study_commands.specs.Draw.{process_said};

use process_api::Pid;
use study::{is_natural_word, natural_in};

/// The process that a word names by its number, 1 to 256.
pub(crate) fn process_of(word: &str) -> Option<Pid>
    ensures { result ≡ process_said word.now }
{
    if !is_natural_word(word) {
        return None;
    }
    Pid::new(u16::try_from(natural_in(word)?).ok()?)
}
