//! The version.
ghost use Rattle.std.specs.Prelude.{◌≡◌};
ghost use Rattle.study_line.specs.Order.{version_text};

/// The line that `--version` prints: the program's name and its version, which is that of the file VERSION. The help
/// begins with it too.
pub fn version_line() -> &'static str
    ensures { result.now ≡ version_text }
{
    "fdstudy 0.1.0\n"
}
