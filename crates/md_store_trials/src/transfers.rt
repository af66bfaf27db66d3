//! A body that moves an amount between two keys, or looks at both.

ghost use Rattle.std.specs.Prelude.{◌≡◌, ◌<◌, IfErr, IfOk, None};
ghost use Rattle.md_store_trials.specs.Stopped.{HasStopped};

use md_history::{Body, Stop, TxCalls};

/// If `moves`, it moves 1 from the value of a key of the first map to that of another, unless the
/// first one is 0. Otherwise it looks at both. An absent value counts as 0. Its reply has the
/// values that it found.
#[derive(Clone, Copy, Drop)]
pub struct Transfer {
    pub from: u64,
    pub to: u64,
    pub moves: bool,
}

// Looks at both keys.
fn look<T: TxCalls>(t: &mut T, from: u64, to: u64) -> Result<(u64, u64), Stop>
    requires map { 0 < T.maps (T.kept t.old) }
    ensures ok { IfOk result (λ _. T.stop t.new ≡ None) }
    ensures err { IfErr result (HasStopped (T.stop t.new)) }
    ensures kept { T.kept t.new ≡ T.kept t.old }
{
    let left = t.get(0, from)?.unwrap_or(0);
    let there = t.get(0, to)?.unwrap_or(0);
    Ok((left, there))
}

// Moves 1, if there is something to move.
fn move_one<T: TxCalls>(t: &mut T, from: u64, to: u64) -> Result<(u64, u64), Stop>
    requires map { 0 < T.maps (T.kept t.old) }
    ensures ok { IfOk result (λ _. T.stop t.new ≡ None) }
    ensures err { IfErr result (HasStopped (T.stop t.new)) }
    ensures kept { T.kept t.new ≡ T.kept t.old }
{
    let left = t.get(0, from)?.unwrap_or(0);
    let moved = left.min(1);
    t.put(0, from, left - moved)?;
    let there = t.get(0, to)?.unwrap_or(0);
    t.put(0, to, there.wrapping_add(moved))?;
    Ok((left, there))
}

// Moves or looks.
fn transfer_once<T: TxCalls>(t: &mut T, transfer: Transfer) -> Result<(u64, u64), Stop>
    requires map { 0 < T.maps (T.kept t.old) }
    ensures ok { IfOk result (λ _. T.stop t.new ≡ None) }
    ensures err { IfErr result (HasStopped (T.stop t.new)) }
    ensures kept { T.kept t.new ≡ T.kept t.old }
{
    if transfer.moves {
        return move_one(t, transfer.from, transfer.to);
    }
    look(t, transfer.from, transfer.to)
}

impl Body for Transfer {
    ghost use Rattle.std.specs.Prelude.{◌<◌};

    type Reply = (u64, u64);

    ghost did = { λ b acts r. Unit {0} };

    ghost makes = { λ b acts. Unit {0} };

    ghost fits = { λ b maps queues. 0 < maps };

    fn go<T: TxCalls>(&self, t: &mut T) -> Result<(u64, u64), Stop> {
        transfer_once(t, *self)
    }

    ghost did_makes = { λ b acts r did. tt };
}
