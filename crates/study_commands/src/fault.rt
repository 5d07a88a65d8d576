//! Why a run of the program ends without having done what it was asked, and how it says so.
ghost use Rattle.std.specs.Prelude.{◌≡◌, IfOk, IfErr};
ghost use Rattle.study_commands.specs.Fault.{line_of, IsOfWords};

use drawing::DrawError;
use reporting::Outlet;
use shell::{Failure, tell_text};
use std::alloc::AllocError;

/// Why the program did not do what it was asked.
#[derive(Drop)]
pub enum Fault {
    /// A part of the order is missing: of a study that is to be checked, its seeds.
    Form,
    /// Memory was refused while words were read.
    WordsMemory,
    /// A word is refused, as this line says.
    Words(String),
    /// The file can't be read, or it or a run's scenario is refused, as this line says. There is none where memory was
    /// refused for it.
    Refused(Option<String>),
    /// The picture is refused for this reason, as this line says. There is none where memory was refused for it.
    NotDrawn(DrawError, Option<String>),
    /// The run has more entries than the scenario's limit.
    Limit,
    /// Memory was refused.
    Memory,
    /// Writing failed.
    Write,
}

impl Fault {
    /// A refusal of words, with its line.
    pub fn of_words(line: Result<String, AllocError>) -> Fault
        ensures words { IsOfWords result }
        ensures line { IfOk line (λ text. result ≡ Fault.Words text) }
        ensures memory { IfErr line (λ _. result ≡ Fault.WordsMemory) }
    {
        match line {
            Ok(line) => Fault::Words(line),
            Err(_) => Fault::WordsMemory,
        }
    }

    /// The line that is told of the fault.
    fn line(&self) -> &str
        ensures { result.now ≡ line_of self.now }
    {
        match self {
            Fault::Form => "fdstudy: words: Form: the options of a study need --seeds\n",
            Fault::WordsMemory => "fdstudy: words: Memory\n",
            Fault::Words(line) | Fault::Refused(Some(line)) | Fault::NotDrawn(_, Some(line)) => {
                line.as_str()
            }
            Fault::Refused(None) | Fault::NotDrawn(_, None) => {
                "fdstudy: refused, and no memory to say why\n"
            }
            Fault::Limit => "fdstudy: run: Limit\n",
            Fault::Memory => "fdstudy: run: Memory\n",
            Fault::Write => "fdstudy: run: Write\n",
        }
    }
}

impl From<AllocError> for Fault {
    ghost use Rattle.study_commands.specs.declared.fault.Fault.TheVariants.{Memory};

    ghost from_gives = { λ _ fault. fault ≡ Memory };

    fn from(_error: AllocError) -> Fault {
        Fault::Memory
    }
}

impl Failure for Fault {
    ghost use Rattle.std.specs.Prelude.{refl};
    ghost use Rattle.study_commands.specs.{Fault.{end_of, line_of, status_of}, Inside.Statuses.{has_status}, declared.fault.Fault.TheVariants.{Write}};

    ghost status = { status_of };

    ghost line = { line_of };

    ghost end = { end_of };

    ghost unwritten = { Write };

    ghost is_cut = { refl };

    ghost statuses = { has_status };

    fn unwritten() -> Fault {
        Fault::Write
    }

    fn status(&self) -> u8 {
        match self {
            Fault::Form | Fault::WordsMemory | Fault::Words(_) => 2,
            Fault::Refused(_) | Fault::NotDrawn(..) => 1,
            Fault::Limit | Fault::Memory => 3,
            Fault::Write => 4,
        }
    }

    fn put_line<O: Outlet>(&self, faults: &mut O) {
        tell_text(self.line(), faults);
    }
}
