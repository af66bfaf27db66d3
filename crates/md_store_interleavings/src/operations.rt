//! The calls of the operations that were begun.

ghost use Rattle.std.specs.Prelude.{◌≡◌, ◌<◌, None};
ghost use Rattle.md_history.specs.declared.acts.Op.TheVariants.{Get, Insert, Remove, Put};
ghost use Rattle.md_history.specs.declared.acts.Op.TheVariants.{Enqueue, Dequeue, Front, Line};
ghost use Rattle.md_history.specs.Calls.{IsLineLength};
ghost use Rattle.md_store_interleavings.specs.Acting.{Exists, HasBegun, Makes};
ghost use Rattle.md_list.specs.Walking.{IsHeadOf};
ghost use Rattle.md_nbtc_law.specs.State.{shape_in};
ghost use Rattle.md_nbtc.specs.State.{state};

use md_history::{Op, Reply, Stop};
use md_list::{get, insert, put, remove};
use md_nbtc::Txn;
use md_queue::{dequeue, enqueue, front, line};
use md_store_law::StoreTheory;

// Makes the call of an operation that was begun.
pub(crate) fn made<'a>(txn: &mut Txn<'a, StoreTheory>, op: Op) -> Result<Reply, Stop>
    requires begun { HasBegun (state txn.old) }
    requires exists { Exists (shape_in (state txn.old)) op }
    ensures pass { txn.new.pass.ghost_name ≡ txn.old.pass.ghost_name }
    ensures makes { Makes (state txn.old) (state txn.new) op result }
{
    match op {
        Op::Get { map, key } => make_get(txn, map, key),
        Op::Insert { map, key, value } => make_insert(txn, map, key, value),
        Op::Remove { map, key } => make_remove(txn, map, key),
        Op::Put { map, key, value } => make_put(txn, map, key, value),
        Op::Enqueue { queue, value } => make_enqueue(txn, queue, value),
        Op::Dequeue { queue } => make_dequeue(txn, queue),
        Op::Front { queue } => make_front(txn, queue),
        Op::Line { queue, n } => make_line(txn, queue, n),
    }
}

// The word of the head of a key's bucket.
fn head_of(txn: &Txn<'_, StoreTheory>, map: u32, key: u64) -> u32
    requires { map < (shape_in (state txn.now)).maps }
    ensures { IsHeadOf (shape_in (state txn.now)) map key result }
{
    txn.shape().map_head(map, key)
}

fn make_get<'a>(txn: &mut Txn<'a, StoreTheory>, map: u32, key: u64) -> Result<Reply, Stop>
    requires begun { HasBegun (state txn.old) }
    requires map { map < (shape_in (state txn.old)).maps }
    ensures pass { txn.new.pass.ghost_name ≡ txn.old.pass.ghost_name }
    ensures makes { Makes (state txn.old) (state txn.new) (Get map key) result }
{
    let head = head_of(txn, map, key);
    match get(txn, head, key) {
        Ok(value) => Ok(Reply::Value(value)),
        Err(why) => Err(why),
    }
}

fn make_insert<'a>(
    txn: &mut Txn<'a, StoreTheory>,
    map: u32,
    key: u64,
    value: u64,
) -> Result<Reply, Stop>
    requires begun { HasBegun (state txn.old) }
    requires map { map < (shape_in (state txn.old)).maps }
    ensures pass { txn.new.pass.ghost_name ≡ txn.old.pass.ghost_name }
    ensures makes { Makes (state txn.old) (state txn.new) (Insert map key value) result }
{
    let head = head_of(txn, map, key);
    match insert(txn, head, key, value) {
        Ok(absent) => Ok(Reply::Flag(absent)),
        Err(why) => Err(why),
    }
}

fn make_remove<'a>(txn: &mut Txn<'a, StoreTheory>, map: u32, key: u64) -> Result<Reply, Stop>
    requires begun { HasBegun (state txn.old) }
    requires map { map < (shape_in (state txn.old)).maps }
    ensures pass { txn.new.pass.ghost_name ≡ txn.old.pass.ghost_name }
    ensures makes { Makes (state txn.old) (state txn.new) (Remove map key) result }
{
    let head = head_of(txn, map, key);
    match remove(txn, head, key) {
        Ok(value) => Ok(Reply::Value(value)),
        Err(why) => Err(why),
    }
}

fn make_put<'a>(
    txn: &mut Txn<'a, StoreTheory>,
    map: u32,
    key: u64,
    value: u64,
) -> Result<Reply, Stop>
    requires begun { HasBegun (state txn.old) }
    requires map { map < (shape_in (state txn.old)).maps }
    ensures pass { txn.new.pass.ghost_name ≡ txn.old.pass.ghost_name }
    ensures makes { Makes (state txn.old) (state txn.new) (Put map key value) result }
{
    let head = head_of(txn, map, key);
    match put(txn, head, key, value) {
        Ok(old) => Ok(Reply::Value(old)),
        Err(why) => Err(why),
    }
}

fn make_enqueue<'a>(txn: &mut Txn<'a, StoreTheory>, queue: u32, value: u64) -> Result<Reply, Stop>
    requires begun { HasBegun (state txn.old) }
    requires queue { queue < (shape_in (state txn.old)).queues }
    ensures pass { txn.new.pass.ghost_name ≡ txn.old.pass.ghost_name }
    ensures makes { Makes (state txn.old) (state txn.new) (Enqueue queue value) result }
{
    match enqueue(txn, queue, value) {
        Ok(()) => Ok(Reply::Nothing),
        Err(why) => Err(why),
    }
}

fn make_dequeue<'a>(txn: &mut Txn<'a, StoreTheory>, queue: u32) -> Result<Reply, Stop>
    requires begun { HasBegun (state txn.old) }
    requires queue { queue < (shape_in (state txn.old)).queues }
    ensures pass { txn.new.pass.ghost_name ≡ txn.old.pass.ghost_name }
    ensures makes { Makes (state txn.old) (state txn.new) (Dequeue queue) result }
{
    match dequeue(txn, queue) {
        Ok(value) => Ok(Reply::Value(value)),
        Err(why) => Err(why),
    }
}

fn make_front<'a>(txn: &mut Txn<'a, StoreTheory>, queue: u32) -> Result<Reply, Stop>
    requires begun { HasBegun (state txn.old) }
    requires queue { queue < (shape_in (state txn.old)).queues }
    ensures pass { txn.new.pass.ghost_name ≡ txn.old.pass.ghost_name }
    ensures makes { Makes (state txn.old) (state txn.new) (Front queue) result }
{
    match front(txn, queue) {
        Ok(value) => Ok(Reply::Value(value)),
        Err(why) => Err(why),
    }
}

fn make_line<'a>(txn: &mut Txn<'a, StoreTheory>, queue: u32, n: u8) -> Result<Reply, Stop>
    requires begun { HasBegun (state txn.old) }
    requires queue { queue < (shape_in (state txn.old)).queues }
    requires few { IsLineLength n }
    ensures pass { txn.new.pass.ghost_name ≡ txn.old.pass.ghost_name }
    ensures makes { Makes (state txn.old) (state txn.new) (Line queue n) result }
{
    match line(txn, queue, n) {
        Ok(line) => Ok(Reply::Line(line)),
        Err(why) => Err(why),
    }
}
