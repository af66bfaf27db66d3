//! A sink over any writer of std.

ghost use Rattle.std.specs.Prelude.{◌≡◌, ◌≤◌, [], IfNone, IfSome, length, take};
ghost use Rattle.std.specs.Io.KnownBytes.{Appends};
ghost use Rattle.md_outside.specs.Grows.{Grows};

use crate::passage::Passage;
use crate::{Failed, Sink};
use std::io::Write;

/// A writer of std, with a count of its faults. It doesn't tell its bytes, because a part may have
/// been written even if the flush after it failed. Contracts see the bytes that its writes took
/// (`sink_bytes`).
#[derive(Drop)]
pub struct StdSink<W> {
    inner: W,
    faults: u64,
    taken: Passage,
}

impl<W: Write> StdSink<W> {
    ghost use Rattle.md_outside.specs.StdSink.{sink_writer, sink_faults, sink_bytes, KeepsWrites};

    /// A sink that writes to `inner`, with a count of 0 faults. No byte was written yet.
    pub fn new(inner: W) -> StdSink<W>
        ensures writer { sink_writer result ≡ inner }
        ensures faults { sink_faults result ≡ 0 }
        ensures bytes { sink_bytes result ≡ [] }
    {
        StdSink {
            inner,
            faults: 0,
            taken: Passage::new(),
        }
    }

    /// A law: whatever writes took up to now stands behind the bytes that were taken before.
    pub fn keeps_writes(&self)
        ensures { KeepsWrites W.contents self.now }
    {}
}

/// Each call makes one write to the inner writer, and then one flush. It returns `Failed` if either
/// has an error, `Interrupted` too, or if the write took no byte.
impl<W: Write> Sink for StdSink<W> {
    ghost use Rattle.md_outside.specs.StdSink.{sink_faults, StdTakes};

    ghost takes = { StdTakes W.contents };

    ghost faults = { sink_faults };

    fn write(&mut self, part: &[u8]) -> Result<usize, Failed> {
        match write_through(&mut self.inner, part) {
            Some(count) => {
                self.taken.add(&part[..count]);
                Ok(count)
            }
            None => {
                self.faults = self.faults.saturating_add(1);
                Err(Failed)
            }
        }
    }
}

// One write and one flush. None if either failed, or if no byte was written.
fn write_through<W: Write>(writer: &mut W, part: &[u8]) -> Option<usize>
    ensures bound { IfSome result (λ n. (1 ≤ n) × (n ≤ length part.now)) }
    ensures written { IfSome result (λ n.
        Appends (W.contents writer.old) (W.contents writer.new) (take n part.now)) }
    ensures none_lost { IfNone result (Grows (W.contents writer.old) (W.contents writer.new)) }
{
    let count = writer.write(part).ok()?;
    writer.flush().ok()?;
    (count > 0).then_some(count)
}
