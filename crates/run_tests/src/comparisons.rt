//! Comparisons that all tests make.
use std::fmt::Debug;
use std::process::Abort;

/// Why a test stops where it had no memory.
pub const NO_MEMORY: &str = "memory was refused";

/// What came is what was wanted.
pub fn same<R: Abort, T: PartialEq + Debug>(rt: &R, came: &T, wanted: &T) {
    assert_eq!(rt; came, wanted);
}

/// The bytes are this text.
pub fn is_text(rt: &impl Abort, bytes: &[u8], wanted: &str) {
    let text = std::str::from_utf8(bytes).expect(rt, "no text");
    same(rt, &text, &wanted);
}

/// The bytes are these pieces, one after the other.
pub fn is_made_of(rt: &impl Abort, bytes: &[u8], pieces: &[&str]) {
    let mut rest = bytes;
    for piece in pieces {
        assert!(rt; rest.starts_with(piece.as_bytes()), "{piece}");
        rest = &rest[piece.len().min(rest.len())..];
    }
    assert!(rt; rest.is_empty());
}
