//! What a program reads from and writes to.

ghost use Rattle.std.specs.Prelude.{◌<◌, List, ℕ, length, Option, ⊤};
ghost use Rattle.std.specs.Io.{ReadsAtMost};
ghost use Rattle.std.specs.Io.KnownBytes.{ReadConsumes, WriteAppends};
ghost use Rattle.md_outside.specs.Causes.{HasCause, TakesSome};
ghost use Rattle.md_outside.specs.Moves.{bytes_moved};

/// A read or a write failed.
#[derive(Clone, Copy, Debug, PartialEq, Eq)]
pub struct Failed;

/// Bytes that come in, with a count of the reads that failed.
pub trait Source {
    /// The bytes that are left, if the source tells them. Otherwise `None`.
    ghost left: { Self → Option (List ℕ) } = { λ _. Option.None };

    /// What one read may give, and how it leaves the source: some bytes (none at the end), or
    /// `None` if it failed.
    ghost gives: { Self → Option (List ℕ) → Self → Type 0 } = { λ _ _ _. ⊤ };

    /// How often it has failed. The count stands still at `u64::MAX`.
    ghost faults: { Self → ℕ };

    /// Reads bytes into the front of `buf`, whose length is at least 1.
    ///
    /// `Ok(n)` says that it read n bytes, 0 to the length of `buf`. `Ok(0)` means that the input
    /// has ended. `Failed` only if the count of faults rose in this call. Then no byte was read, if
    /// the source tells its bytes.
    fn read(&mut self, buf: &mut [u8]) -> Result<usize, Failed>
        requires { 0 < length buf.old }
        ensures bound { ReadsAtMost result buf.new }
        ensures bytes { ReadConsumes (left self.old) (left self.new) result buf.new }
        ensures step { gives self.old (bytes_moved result buf.new) self.new }
        ensures cause { HasCause (faults self.old) (faults self.new) result };
}

/// Bytes that go out, with a count of the writes that failed.
pub trait Sink {
    /// The bytes that it holds, if the sink tells them. Otherwise `None`.
    ghost holds: { Self → Option (List ℕ) } = { λ _. Option.None };

    /// What one write may take, and how it leaves the sink: some bytes, or `None` if it failed.
    ghost takes: { Self → Option (List ℕ) → Self → Type 0 } = { λ _ _ _. ⊤ };

    /// How often it has failed. The count stands still at `u64::MAX`.
    ghost faults: { Self → ℕ };

    /// Writes the front of `part`, whose length is at least 1.
    ///
    /// `Ok(n)` says that it wrote n bytes, 1 to the length of `part`. `Failed` only if the count of
    /// faults rose in this call. Then no byte was written, if the sink tells its bytes.
    fn write(&mut self, part: &[u8]) -> Result<usize, Failed>
        requires { 0 < length part.now }
        ensures bound { TakesSome result part.now }
        ensures bytes { WriteAppends (holds self.old) (holds self.new) result part.now }
        ensures step { takes self.old (bytes_moved result part.now) self.new }
        ensures cause { HasCause (faults self.old) (faults self.new) result };
}
