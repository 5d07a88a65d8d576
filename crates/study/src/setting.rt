//! The value to which a key is set.
ghost use Rattle.std.specs.Prelude.{◌≡◌};
ghost use Rattle.study.specs.Settings.{given_by, given_text};

use itoa::Buffer;

/// What a key is set to.
#[derive(Drop)]
pub enum Setting {
    /// An integer.
    Integer(i64),
    /// A text.
    Text(String),
}

impl Setting {
    /// The setting as it is written: an integer in decimal, by the buffer, and a text as it stands.
    pub fn text<'a>(&'a self, buffer: &'a mut Buffer) -> &'a str
        ensures { result.now ≡ given_text (given_by self.now) }
    {
        match self {
            Setting::Integer(number) => buffer.format(*number),
            Setting::Text(text) => text.as_str(),
        }
    }
}
