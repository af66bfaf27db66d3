//! A body that makes pseudo-random calls.

ghost use Rattle.std.specs.Prelude.{◌≡◌, ◌<◌, IfErr, IfOk, None};
ghost use Rattle.md_store_trials.specs.Stopped.{HasStopped};

use md_history::{Body, MAX_LINE, Reply, Stop, TxCalls};

/// The most calls of a `Mix`.
pub const MOST_CALLS: usize = 10;

/// A body that makes pseudo-random calls on the first two maps and the first two queues, with one
/// of 16 keys each. `calls` is how many, and more than `MOST_CALLS` count as `MOST_CALLS`. The
/// `seed`, any number, decides which calls. The numbers come from the example of `rand` in the C
/// standard (ISO/IEC 9899:1990, 7.10.2.2). Its reply has the reply of each call; the others are
/// `Nothing`.
#[derive(Clone, Copy, Drop)]
pub struct Mix {
    pub seed: u32,
    pub calls: u8,
}

// The next draw. The numbers are those of the C standard's example of `rand`.
fn drawn(draw: u32) -> u32 {
    draw.wrapping_mul(1_103_515_245).wrapping_add(12_345)
}

// Makes a call on a map: of 8 draws, 2 are an insert, 2 a remove, 2 a put and 2 a get.
fn call_map<T: TxCalls>(t: &mut T, draw: u32) -> Result<Reply, Stop>
    requires maps { 1 < T.maps (T.kept t.old) }
    ensures ok { IfOk result (λ _. T.stop t.new ≡ None) }
    ensures err { IfErr result (HasStopped (T.stop t.new)) }
    ensures kept { T.kept t.new ≡ T.kept t.old }
{
    let map = (draw >> 20) % 2;
    let key = ((draw >> 16) % 16) as u64 * 0x1111_1111_1111_1111;
    match (draw >> 28) % 8 {
        0 | 1 => Ok(Reply::Flag(t.insert(map, key, draw as u64)?)),
        2 | 3 => Ok(Reply::Value(t.remove(map, key)?)),
        4 | 5 => Ok(Reply::Value(t.put(map, key, draw as u64)?)),
        _ => Ok(Reply::Value(t.get(map, key)?)),
    }
}

// Makes a call on a queue: of 8 draws, 3 are an enqueue, 3 a dequeue, 1 a front and 1 a line.
fn call_queue<T: TxCalls>(t: &mut T, draw: u32) -> Result<Reply, Stop>
    requires queues { 1 < T.queues (T.kept t.old) }
    ensures ok { IfOk result (λ _. T.stop t.new ≡ None) }
    ensures err { IfErr result (HasStopped (T.stop t.new)) }
    ensures kept { T.kept t.new ≡ T.kept t.old }
{
    let queue = (draw >> 20) % 2;
    match (draw >> 28) % 8 {
        0 | 1 | 2 => {
            t.enqueue(queue, draw as u64 * 0x1_0000_0000)?;
            Ok(Reply::Nothing)
        }
        3 | 4 | 5 => Ok(Reply::Value(t.dequeue(queue)?)),
        6 => Ok(Reply::Value(t.front(queue)?)),
        _ => {
            let n = 1 + ((draw >> 16) % MAX_LINE as u32) as u8;
            Ok(Reply::Line(t.line(queue, n)?))
        }
    }
}

// Makes as many calls as the body says, at most as many as there is room for replies.
fn call_all<T: TxCalls>(t: &mut T, mix: Mix) -> Result<[Reply; MOST_CALLS], Stop>
    requires going { T.stop t.old ≡ None }
    requires maps { 1 < T.maps (T.kept t.old) }
    requires queues { 1 < T.queues (T.kept t.old) }
    ensures ok { IfOk result (λ _. T.stop t.new ≡ None) }
    ensures err { IfErr result (HasStopped (T.stop t.new)) }
    ensures kept { T.kept t.new ≡ T.kept t.old }
{
    let mut draw = mix.seed;
    let mut replies = [Reply::Nothing; MOST_CALLS];
    for i in 0..MOST_CALLS.min(mix.calls as usize) {
        draw = drawn(draw);
        replies[i] = if draw >> 31 == 0 {
            call_map(t, draw)?
        } else {
            call_queue(t, draw)?
        };
    }
    Ok(replies)
}

impl Body for Mix {
    ghost use Rattle.std.specs.Prelude.{◌<◌};

    type Reply = [Reply; MOST_CALLS];

    ghost did = { λ b acts r. Unit {0} };

    ghost makes = { λ b acts. Unit {0} };

    ghost fits = { λ b maps queues. (1 < maps) × (1 < queues) };

    fn go<T: TxCalls>(&self, t: &mut T) -> Result<[Reply; MOST_CALLS], Stop> {
        call_all(t, *self)
    }

    ghost did_makes = { λ b acts r did. tt };
}
