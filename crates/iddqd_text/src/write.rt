//! Writes a whole text.
ghost use Rattle.std.specs.Prelude.{◌≡◌, OnErr, OnOk};
ghost use Rattle.std.specs.Io.KnownBytes.{Appends};
ghost use Rattle.iddqd_text.specs.Ends.{failures_after, AppendsFront};

use crate::ends::{EndFault, Out};

/// Writes all bytes, in pieces. It allocates nothing.
///
/// It fails at the first write that fails, and tries none again. Then a prefix of the bytes has been written, and not
/// all of them.
#[tactic(auto, using(crate::proofs::Moving::appends_on))]
pub fn write_all<W: Out>(out: &mut W, bytes: &[u8]) -> Result<(), EndFault>
    ensures all { OnOk result (Appends (W.held out.old) (W.held out.new) bytes.now) }
    ensures front { OnErr result (AppendsFront (W.held out.old) (W.held out.new) bytes.now) }
    ensures failures { W.failures out.new ≡ failures_after result (W.failures out.old) }
{
    let mut at = 0;
    while at < bytes.len() {
        at += out.write(&bytes[at..])?;
    }
    Ok(())
}
