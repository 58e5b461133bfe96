//! A writer of std as an `Out`.
ghost use Rattle.std.specs.Prelude.{◌≡◌};

use crate::ends::{EndFault, Out};
use iddqd_store::Meter;
use std::io::Write;
use std::marker::Model;

/// A writer of std as an `Out`. It is no larger than the writer.
///
/// If the writer takes no byte of a piece that is not empty, the write counts as failed.
#[derive(Drop)]
pub struct ToWrite<W> {
    inner: W,
    failures: Meter,
}

impl<W> Model for ToWrite<W> {
    ghost use Rattle.iddqd_text.specs.Ends.{Counted};

    ghost Value = { Counted W };

    ghost view = { λ s. record { inner = s.inner; failures = s.failures } };
}

impl<W> ToWrite<W> {
    /// Makes an `Out` of a writer, with no failed write so far.
    pub fn new(inner: W) -> Self
        ensures inner { result.inner ≡ inner }
        ensures failures { result.failures ≡ 0 }
    {
        ToWrite {
            inner,
            failures: Meter::new(),
        }
    }

    /// Returns the writer, with what it took.
    pub fn into_inner(self) -> W
        ensures { result ≡ self.inner }
    {
        let ToWrite { inner, failures: _ } = self;
        inner
    }
}

impl<W: Write> Out for ToWrite<W> {
    ghost held = { λ s. W.contents s.inner };

    ghost failures = { λ s. s.failures };

    fn write(&mut self, bytes: &[u8]) -> Result<usize, EndFault> {
        match self.inner.write(bytes) {
            Ok(0) if !bytes.is_empty() => {
                self.failures.tick();
                Err(EndFault)
            }
            Ok(n) => Ok(n),
            Err(_) => {
                self.failures.tick();
                Err(EndFault)
            }
        }
    }
}
