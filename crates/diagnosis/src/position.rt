//! Places in a text.
ghost use Rattle.std.specs.{Prelude.{◌≡◌}, Fmt.{is_char_start}};
ghost use Rattle.diagnosis.specs.Diagnosis.{line_after, column_after};

/// Whether a character starts at the byte.
fn starts_character(byte: u8) -> bool
    ensures { result ≡ is_char_start byte }
{
    byte < 0x80 || 0xC0 <= byte
}

/// The line and the column, both from 1, of the place after some bytes. A column counts characters, and a line ends
/// with its line feed.
pub(crate) fn position_after(before: &[u8]) -> (usize, usize)
    ensures line { result.0 ≡ line_after before.now }
    ensures column { result.1 ≡ column_after before.now }
{
    let mut line = 1_usize;
    let mut column = 1_usize;
    for byte in before {
        if *byte == b'\n' {
            line += 1;
            column = 1;
        } else if starts_character(*byte) {
            column += 1;
        }
    }
    (line, column)
}
