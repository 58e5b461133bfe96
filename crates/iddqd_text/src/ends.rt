//! Where the program's bytes come from, and where they go.
ghost use Rattle.std.specs.Prelude.{◌≡◌, ℕ, List, Option};
ghost use Rattle.std.specs.Io.{ReadsAtMost, WritesAtMost};
ghost use Rattle.std.specs.Io.KnownBytes.{ReadConsumes, WriteAppends};
ghost use Rattle.iddqd_text.specs.Ends.{failures_after, TakesSome};

/// A read or a write failed.
#[derive(Clone, Copy, Debug, PartialEq, Eq, Drop)]
pub struct EndFault;

/// Where bytes come from.
pub trait Source {
    /// The bytes that are left, if the source tells them.
    ghost left: { Self → Option (List ℕ) };

    /// How many reads failed.
    ghost failures: { Self → ℕ };

    /// Moves the next bytes into the buffer, from its start on, and returns how many it moved. For a buffer that is
    /// not empty it returns 0 only if no bytes are left.
    ///
    /// If it fails, it moved no bytes.
    fn read(&mut self, buffer: &mut [u8]) -> Result<usize, EndFault>
        ensures in_bounds { ReadsAtMost result buffer.new }
        ensures bytes { ReadConsumes (left self.old) (left self.new) result buffer.new }
        ensures failures { failures self.new ≡ failures_after result (failures self.old) };
}

/// Where bytes go.
pub trait Out {
    /// The bytes that were taken, if the target tells them.
    ghost held: { Self → Option (List ℕ) };

    /// How many writes failed.
    ghost failures: { Self → ℕ };

    /// Takes a prefix of the bytes, and returns its length, which is 0 only if there are no bytes.
    ///
    /// If it fails, it took no bytes.
    fn write(&mut self, bytes: &[u8]) -> Result<usize, EndFault>
        ensures in_bounds { WritesAtMost result bytes.now }
        ensures takes_some { TakesSome result bytes.now }
        ensures bytes { WriteAppends (held self.old) (held self.new) result bytes.now }
        ensures failures { failures self.new ≡ failures_after result (failures self.old) };
}
