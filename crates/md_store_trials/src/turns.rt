//! A body of a thread that has keys and values of its own.

ghost use Rattle.std.specs.Prelude.{◌≡◌, ◌<◌, IfErr, IfOk, None};
ghost use Rattle.md_store_trials.specs.Stopped.{HasStopped};

use md_history::{Body, Stop, TxCalls};

/// How many keys of a thread are in the map at once.
pub const KEPT: u32 = 8;

/// A turn of a thread: it inserts its key into the first map, and removes the key of the turn that
/// was `KEPT` turns before. It appends its key to the first queue and, if `number` isn't a multiple
/// of 4, takes out the first value.
#[derive(Clone, Copy, Drop)]
pub struct Turn {
    pub thread: u32,
    pub number: u32,
}

/// The reply of a turn.
#[derive(Clone, Copy, Debug, PartialEq, Eq, Drop)]
pub struct Turned {
    /// Whether its key was absent.
    pub absent: bool,
    /// The value of the key that it removed, if it removed one.
    pub gone: Option<u64>,
    /// The value that it took out of the queue, if it took one.
    pub first: Option<u64>,
}

/// The key of a turn, `number * 2^32 + thread`. It is also the value that the turn appends to the
/// queue. In the order of keys, those of several threads lie between one another.
pub fn key_of(turn: Turn) -> u64 {
    (turn.number as u64) << 32 | turn.thread as u64
}

// The keys of the map.
fn change_keys<T: TxCalls>(t: &mut T, turn: Turn) -> Result<(bool, Option<u64>), Stop>
    requires map { 0 < T.maps (T.kept t.old) }
    ensures ok { IfOk result (λ _. T.stop t.new ≡ None) }
    ensures err { IfErr result (HasStopped (T.stop t.new)) }
    ensures kept { T.kept t.new ≡ T.kept t.old }
{
    let absent = t.insert(0, key_of(turn), turn.number as u64)?;
    let Some(number) = turn.number.checked_sub(KEPT) else {
        return Ok((absent, None));
    };
    Ok((absent, t.remove(0, key_of(Turn { number, ..turn }))?))
}

// The values of the queue.
fn change_values<T: TxCalls>(t: &mut T, turn: Turn) -> Result<Option<u64>, Stop>
    requires queue { 0 < T.queues (T.kept t.old) }
    ensures ok { IfOk result (λ _. T.stop t.new ≡ None) }
    ensures err { IfErr result (HasStopped (T.stop t.new)) }
    ensures kept { T.kept t.new ≡ T.kept t.old }
{
    t.enqueue(0, key_of(turn))?;
    if turn.number % 4 == 0 {
        return Ok(None);
    }
    t.dequeue(0)
}

// Changes keys and values.
fn turn_once<T: TxCalls>(t: &mut T, turn: Turn) -> Result<Turned, Stop>
    requires map { 0 < T.maps (T.kept t.old) }
    requires queue { 0 < T.queues (T.kept t.old) }
    ensures ok { IfOk result (λ _. T.stop t.new ≡ None) }
    ensures err { IfErr result (HasStopped (T.stop t.new)) }
    ensures kept { T.kept t.new ≡ T.kept t.old }
{
    let (absent, gone) = change_keys(t, turn)?;
    let first = change_values(t, turn)?;
    Ok(Turned {
        absent,
        gone,
        first,
    })
}

impl Body for Turn {
    ghost use Rattle.std.specs.Prelude.{◌<◌};

    type Reply = Turned;

    ghost did = { λ b acts r. Unit {0} };

    ghost makes = { λ b acts. Unit {0} };

    ghost fits = { λ b maps queues. (0 < maps) × (0 < queues) };

    fn go<T: TxCalls>(&self, t: &mut T) -> Result<Turned, Stop> {
        turn_once(t, *self)
    }

    ghost did_makes = { λ b acts r did. tt };
}
