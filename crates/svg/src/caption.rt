//! Captions.
ghost use Rattle.std.specs.Prelude.{◌≡◌, IfOk, string_bytes};

use std::alloc::{AllocError, Global};
use std::marker::Model;

/// A text in a picture. Contracts see its bytes, in UTF-8.
#[derive(Drop)]
pub struct Caption {
    text: String,
}

impl Model for Caption {
    ghost use Rattle.std.specs.Prelude.{ℕ, List, string_bytes};

    ghost Value = { List ℕ };

    ghost view = { λ c. string_bytes c.text };
}

impl Caption {
    /// The caption that shows a text.
    pub fn new(text: String) -> Caption
        ensures { result ≡ string_bytes text }
    {
        Caption { text }
    }

    /// The caption that shows a copy of a text.
    ///
    /// # Errors
    ///
    /// `AllocError` where memory was refused.
    pub fn copied(alloc: Global, text: &str) -> Result<Caption, AllocError>
        ensures { IfOk result (λ c. c ≡ text.now) }
    {
        Ok(Caption {
            text: String::from_str(alloc, text)?,
        })
    }

    /// The bytes, in UTF-8.
    pub(crate) fn bytes(&self) -> &[u8]
        ensures { result.now ≡ self.now }
    {
        self.text.as_bytes()
    }
}
