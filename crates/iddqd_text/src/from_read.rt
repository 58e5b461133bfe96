//! A reader of std as a `Source`.
ghost use Rattle.std.specs.Prelude.{◌≡◌};

use crate::ends::{EndFault, Source};
use iddqd_store::Meter;
use std::io::Read;
use std::marker::Model;

/// A reader of std as a `Source`. It is no larger than the reader.
#[derive(Drop)]
pub struct FromRead<R> {
    inner: R,
    failures: Meter,
}

impl<R> Model for FromRead<R> {
    ghost use Rattle.iddqd_text.specs.Ends.{Counted};

    ghost Value = { Counted R };

    ghost view = { λ s. record { inner = s.inner; failures = s.failures } };
}

impl<R> FromRead<R> {
    /// Makes a source of a reader, with no failed read so far.
    pub fn new(inner: R) -> Self
        ensures inner { result.inner ≡ inner }
        ensures failures { result.failures ≡ 0 }
    {
        FromRead {
            inner,
            failures: Meter::new(),
        }
    }

    /// Returns the reader, with the bytes that are left in it.
    pub fn into_inner(self) -> R
        ensures { result ≡ self.inner }
    {
        let FromRead { inner, failures: _ } = self;
        inner
    }
}

impl<R: Read> Source for FromRead<R> {
    ghost left = { λ s. R.remaining s.inner };

    ghost failures = { λ s. s.failures };

    fn read(&mut self, buffer: &mut [u8]) -> Result<usize, EndFault> {
        match self.inner.read(buffer) {
            Ok(n) => Ok(n),
            Err(_) => {
                self.failures.tick();
                Err(EndFault)
            }
        }
    }
}
