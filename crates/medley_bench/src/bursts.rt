//! A transaction of operations that are chosen when it runs.

ghost use Rattle.std.specs.Prelude.{◌≡◌, ◌+◌, ◌<◌, ◌≤◌, IfOk, if◌then◌else◌, length, None};
ghost use Rattle.md_history.specs.Playing.{PlaysPart};
ghost use Rattle.md_history_loops.specs.Loops.{try_fold};
ghost use Rattle.medley_bench.specs.declared.draws.TheConstants.{MOST};
ghost use Rattle.medley_bench.specs.Bursts.{count_hit};

use crate::draws::{Burst, Call};
use md_history::{Body, Stop, TxCalls};

// One more than before, if there was a hit.
fn counted(hit: bool, before: usize) -> usize
    requires { before < MOST }
    ensures value { result ≡ (if hit then before + 1 else before) }
    ensures few { result ≤ before + 1 }
{
    if hit { before + 1 } else { before }
}

// Makes a call, and counts it if it found or changed something.
#[inline]
fn count_hit<T: TxCalls>(t: &mut T, call: Call, before: usize) -> Result<usize, Stop>
    requires going { T.stop t.old ≡ None }
    requires map { 0 < T.maps (T.kept t.old) }
    requires few { before < MOST }
    ensures plays { PlaysPart (count_hit call before) result T.acts T.stop t.old t.new }
    ensures kept { T.kept t.new ≡ T.kept t.old }
    ensures few { IfOk result (λ after. after ≤ before + 1) }
{
    match call {
        Call::Get(key) => Ok(counted(t.get(0, key)?.is_some(), before)),
        Call::Insert(key) => Ok(counted(t.insert(0, key, key)?, before)),
        Call::Remove(key) => Ok(counted(t.remove(0, key)?.is_some(), before)),
    }
}

// Makes the calls of a list in turn.
#[inline]
fn count_hits<T: TxCalls>(t: &mut T, calls: &[Call]) -> Result<usize, Stop>
    requires going { T.stop t.old ≡ None }
    requires map { 0 < T.maps (T.kept t.old) }
    requires few { length calls.now ≤ MOST }
    ensures plays { PlaysPart (try_fold count_hit calls.now 0) result T.acts T.stop t.old t.new }
    ensures kept { T.kept t.new ≡ T.kept t.old }
{
    let mut hits = 0;
    for i in 0..calls.len() {
        hits = count_hit(t, calls[i], hits)?;
    }
    Ok(hits)
}

impl Body for Burst {
    ghost use Rattle.std.specs.Prelude.{◌<◌};
    ghost use Rattle.md_history.specs.Script.{Did, Follows};
    ghost use Rattle.medley_bench.specs.Bursts.{script_of};

    type Reply = usize;

    ghost did = { λ b acts r. Did (script_of b) acts r };

    ghost makes = { λ b acts. Follows (script_of b) acts };

    ghost fits = { λ b maps queues. 0 < maps };

    #[inline]
    fn go<T: TxCalls>(&self, t: &mut T) -> Result<usize, Stop> {
        count_hits(t, &self.calls[..self.count])
    }

    ghost did_makes = { λ b acts r did. did.follows };
}
