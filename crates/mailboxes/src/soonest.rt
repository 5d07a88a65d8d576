//! The least tick of letters.
ghost use Rattle.std.specs.Prelude.{◌≡◌};
ghost use Rattle.mailboxes.specs.Mailboxes.{earlier_of};

/// The lesser of two ticks, as far as they are there.
#[inline(always)]
pub fn earlier(a: Option<u32>, b: Option<u32>) -> Option<u32>
    ensures { result ≡ earlier_of a b }
{
    match (a, b) {
        (Some(a), Some(b)) => Some(a.min(b)),
        (Some(a), None) => Some(a),
        (None, b) => b,
    }
}
