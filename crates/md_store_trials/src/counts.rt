//! A body that counts in a map and in a queue.

ghost use Rattle.std.specs.Prelude.{◌≡◌, ◌<◌, IfErr, IfOk, None};
ghost use Rattle.md_store_trials.specs.Stopped.{HasStopped};

use md_history::{Body, Stop, TxCalls};

/// Adds 1, modulo 2^64, to the value of a key of the first map, and to its copy: it takes the first
/// value out of the first queue, and appends the sum there. An absent value counts as 0. Its reply
/// has both values that it found.
#[derive(Clone, Copy, Drop)]
pub struct Count {
    pub key: u64,
}

// Adds 1 to both.
fn add_one<T: TxCalls>(t: &mut T, key: u64) -> Result<(Option<u64>, Option<u64>), Stop>
    requires map { 0 < T.maps (T.kept t.old) }
    requires queue { 0 < T.queues (T.kept t.old) }
    ensures ok { IfOk result (λ _. T.stop t.new ≡ None) }
    ensures err { IfErr result (HasStopped (T.stop t.new)) }
    ensures kept { T.kept t.new ≡ T.kept t.old }
{
    let value = t.get(0, key)?;
    let copy = t.dequeue(0)?;
    t.put(0, key, value.unwrap_or(0).wrapping_add(1))?;
    t.enqueue(0, copy.unwrap_or(0).wrapping_add(1))?;
    Ok((value, copy))
}

impl Body for Count {
    ghost use Rattle.std.specs.Prelude.{◌<◌};

    type Reply = (Option<u64>, Option<u64>);

    ghost did = { λ b acts r. Unit {0} };

    ghost makes = { λ b acts. Unit {0} };

    ghost fits = { λ b maps queues. (0 < maps) × (0 < queues) };

    fn go<T: TxCalls>(&self, t: &mut T) -> Result<(Option<u64>, Option<u64>), Stop> {
        add_one(t, self.key)
    }

    ghost did_makes = { λ b acts r did. tt };
}
