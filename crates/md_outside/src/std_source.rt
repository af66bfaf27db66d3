//! A source over any reader of std.

ghost use Rattle.std.specs.Prelude.{◌≡◌, []};

use crate::passage::Passage;
use crate::{Failed, Source};
use std::io::Read;

/// A reader of std, with a count of its faults. It tells the bytes that the reader tells. Contracts
/// see the bytes that its reads gave (`source_bytes`).
#[derive(Drop)]
pub struct StdSource<R> {
    inner: R,
    faults: u64,
    given: Passage,
}

impl<R: Read> StdSource<R> {
    ghost use Rattle.md_outside.specs.StdSource.{source_reader, source_faults, source_bytes};
    ghost use Rattle.md_outside.specs.StdSource.{KeepsReads};

    /// A source that reads from `inner`, with a count of 0 faults. No byte was read yet.
    pub fn new(inner: R) -> StdSource<R>
        ensures reader { source_reader result ≡ inner }
        ensures faults { source_faults result ≡ 0 }
        ensures bytes { source_bytes result ≡ [] }
    {
        StdSource {
            inner,
            faults: 0,
            given: Passage::new(),
        }
    }

    /// A law: whatever reads gave up to now stands behind the bytes that were given before.
    pub fn keeps_reads(&self)
        ensures { KeepsReads R.remaining self.now }
    {}
}

/// Each call makes one read of the inner reader. It returns `Failed` if this has an error,
/// `Interrupted` too.
impl<R: Read> Source for StdSource<R> {
    ghost use Rattle.md_outside.specs.StdSource.{source_reader, source_faults, StdGives};

    ghost left = { λ s. R.remaining (source_reader s) };

    ghost gives = { StdGives R.remaining };

    ghost faults = { source_faults };

    fn read(&mut self, buf: &mut [u8]) -> Result<usize, Failed> {
        match self.inner.read(buf) {
            Ok(count) => {
                self.given.add(&buf[..count]);
                Ok(count)
            }
            Err(_) => {
                self.faults = self.faults.saturating_add(1);
                Err(Failed)
            }
        }
    }
}
