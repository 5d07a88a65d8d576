//! How a range is written, where a setting looks like one.
ghost use Rattle.std.specs.{Prelude.{◌≡◌, ◌||◌, ◌==◌}, Char.{is_ascii_digit}, List.{list_all, list_any}};
ghost use Rattle.study.specs.{Settings.{given_by}, Words.{has}};
ghost use Rattle.study_commands.specs.Inside.RangeHint.{is_like_range, is_set_like_range};

use study::{Choice, Setting};

/// Whether a byte is a digit or a colon.
fn is_of_range(byte: u8) -> bool
    ensures { result ≡ (is_ascii_digit byte || byte == 58) }
{
    byte.is_ascii_digit() || byte == b':'
}

/// Whether a colon is among the bytes.
fn has_colon(bytes: &[u8]) -> bool
    ensures { result ≡ has 58 bytes.now }
{
    bytes.iter().any(|byte| *byte == b':')
}

/// Whether all bytes are digits and colons.
fn are_of_range(bytes: &[u8]) -> bool
    ensures { result ≡ list_all (λ b. is_ascii_digit b || b == 58) bytes.now }
{
    bytes.iter().all(|byte| is_of_range(*byte))
}

/// Whether a text has digits and colons alone, as if it said a range.
fn is_range_like(text: &str) -> bool
    ensures { result ≡ is_like_range text.now }
{
    has_colon(text.as_bytes()) && are_of_range(text.as_bytes())
}

/// Whether a key is set to such a text.
fn is_set_so(value: &Setting) -> bool
    ensures { result ≡ is_set_like_range (given_by value.now) }
{
    match value {
        Setting::Integer(_) => false,
        Setting::Text(text) => is_range_like(text.as_str()),
    }
}

/// Whether one of these keys is set to such a text.
fn is_one_set_so(settings: &[Choice<'_>]) -> bool
    ensures { result ≡ list_any (λ c. is_set_like_range (given_by c.value.now)) settings.now }
{
    settings.iter().any(|choice| is_set_so(choice.value))
}

/// How a range is written, where one of the keys of a point or of its run is set to a text that looks like one; else
/// nothing.
pub(crate) fn range_hint(point: &[Choice<'_>], run: &[Choice<'_>]) -> &'static str {
    if is_one_set_so(point) || is_one_set_so(run) {
        " (a range is A..=B or A..=B:STEP)"
    } else {
        ""
    }
}
