//! Reads a source to its end.
ghost use Rattle.std.specs.Prelude.{◌≡◌, ◌≢◌, ◌<◌, IfOk, IfErr, IfSome, OnOk, length};
ghost use Rattle.std.specs.Io.KnownBytes.{IsAtEnd};
ghost use Rattle.iddqd_text.specs.Faults.{reads_failed};

use crate::ends::Source;
use crate::outcome::RunFault;
use std::alloc::Global;

/// Reads all bytes of a source, and keeps them in memory. While it reads it has a buffer of 64 KiB too.
///
/// It fails with `Read` at the first read that fails, and tries none again. It fails with `Memory` if memory runs out,
/// for example for a source that never ends.
pub fn read_all<R: Source>(alloc: Global, source: &mut R) -> Result<Vec<u8>, RunFault>
    ensures text { IfOk result (λ text. IfSome (R.left source.old) (λ bytes. text.items ≡ bytes)) }
    ensures to_the_end { OnOk result (IsAtEnd (R.left source.new)) }
    ensures fault { IfErr result (λ fault. fault ≢ RunFault.Write) }
    ensures failures { R.failures source.new ≡ reads_failed result (R.failures source.old) }
{
    let mut piece = vec![in alloc; 0u8; 65536]?;
    read_pieces(alloc, source, &mut piece)
}

/// Reads all bytes of a source with this buffer, which it overwrites.
fn read_pieces<R: Source>(
    alloc: Global,
    source: &mut R,
    piece: &mut [u8],
) -> Result<Vec<u8>, RunFault>
    requires { 0 < length piece.old }
    ensures text { IfOk result (λ text. IfSome (R.left source.old) (λ bytes. text.items ≡ bytes)) }
    ensures to_the_end { OnOk result (IsAtEnd (R.left source.new)) }
    ensures fault { IfErr result (λ fault. fault ≢ RunFault.Write) }
    ensures failures { R.failures source.new ≡ reads_failed result (R.failures source.old) }
{
    let mut text = Vec::new(alloc);
    loop {
        match source.read(piece) {
            Err(_) => return Err(RunFault::Read),
            Ok(0) => return Ok(text),
            Ok(n) => text.extend_from_slice(&piece[..n])?,
        }
    }
}
