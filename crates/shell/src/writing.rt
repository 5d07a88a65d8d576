//! Texts that go out.
ghost use Rattle.std.specs.{Prelude.{◌≡◌, ◌-◌, ◌^◌, ◌<◌, IfErr, OnOk}, List.{flat_map}};
ghost use Rattle.{reporting.specs.Outlet.{Wrote, WrotePart}, shell.specs.Ending.{Tells}};

use crate::failure::Failure;
use reporting::{Outlet, put_all};

/// Writes bytes, or answers the failure of a write at the first put that fails.
pub fn put_bytes<F: Failure, O: Outlet>(bytes: &[u8], outlet: &mut O) -> Result<(), F>
    requires { O.failed outlet.old < 2 ^ 64 - 1 }
    ensures whole { OnOk result (Wrote O.told O.failed outlet.old outlet.new bytes.now) }
    ensures part { IfErr result (λ failure. (failure ≡ F.unwritten)
        × WrotePart O.told O.failed outlet.old outlet.new bytes.now) }
{
    if put_all(outlet, bytes) {
        Ok(())
    } else {
        Err(F::unwritten())
    }
}

/// Writes a text, or answers the failure of a write at the first put that fails.
pub fn put_text<F: Failure, O: Outlet>(text: &str, outlet: &mut O) -> Result<(), F>
    requires { O.failed outlet.old < 2 ^ 64 - 1 }
    ensures whole { OnOk result (Wrote O.told O.failed outlet.old outlet.new text.now) }
    ensures part { IfErr result (λ failure. (failure ≡ F.unwritten)
        × WrotePart O.told O.failed outlet.old outlet.new text.now) }
{
    put_bytes(text.as_bytes(), outlet)
}

/// Writes a text as far as the outlet takes it. Where a put fails, nobody is told.
pub fn tell_text<O: Outlet>(text: &str, outlet: &mut O)
    requires { O.failed outlet.old < 2 ^ 64 - 1 }
    ensures { Tells O.told O.failed outlet.old outlet.new (λ told. told ≡ text.now) }
{
    put_all(outlet, text.as_bytes());
}

/// Writes the pieces one after the other, up to the first that fails. Then nobody is told.
pub fn tell_pieces<O: Outlet>(pieces: &[&str], outlet: &mut O)
    requires { O.failed outlet.old < 2 ^ 64 - 1 }
    ensures { let text = flat_map (λ p. p.now) pieces.now in
        Tells O.told O.failed outlet.old outlet.new (λ told. told ≡ text) }
{
    for piece in pieces {
        if !put_all(outlet, piece.as_bytes()) {
            return;
        }
    }
}
