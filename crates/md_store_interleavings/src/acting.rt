//! How a transaction begins, and how an operation of it is made.

ghost use Rattle.std.specs.Prelude.{◌≡◌, IfOk, IsTrue, None};
ghost use Rattle.md_store_interleavings.specs.Acting.{Exists, IsActing};
ghost use Rattle.md_nbtc.specs.State.{state};
ghost use Rattle.md_store.specs.Store.{IsPassOf};

use crate::operations::made;
use md_history::{Limit, Op, Reply, Stop};
use md_nbtc::{Sets, Txn};
use md_rule::Pass;
use md_store::Store;
use md_store_law::StoreTheory;
use md_words::Shape;

/// Begins a transaction of a pass, with any tag. It keeps its words and nodes in `sets`. The error
/// is `Limit::Tries` if each lane of the pass has begun all of its attempts (`Store::begin`).
pub fn begin<'a>(
    store: &'a Store,
    pass: &'a mut Pass<StoreTheory>,
    tag: u64,
    sets: &'a mut Sets,
) -> Result<Txn<'a, StoreTheory>, Limit>
    requires { IsPassOf store.now pass.old }
    ensures pass { IfOk result (λ t. t.pass.ghost_name ≡ pass.entry.ghost_name) }
    ensures acting { IfOk result (λ t. IsActing store.now (state t) None) }
{
    let begun = Store::begin(pass, store, tag)?;
    Ok(begun.with(sets))
}

/// Makes an operation from its begin to its end, and returns its reply. `stop` has the stop of the
/// transaction, if it has stopped. The call sets it if the operation is stopped. If it is set
/// before, the call returns the same stop and does nothing. If there is no such map or queue, or if
/// a line has a length that isn't from 1 to 12, it returns `Stop::NoMemory` and does nothing.
pub fn act<'a>(
    txn: &mut Txn<'a, StoreTheory>,
    stop: &mut Option<Stop>,
    store: &Store,
    op: Op,
) -> Result<Reply, Stop>
    requires { IsActing store.now (state txn.old) stop.old }
    ensures pass { txn.new.pass.ghost_name ≡ txn.old.pass.ghost_name }
    ensures acting { IsActing store.now (state txn.new) stop.new }
{
    if let Some(why) = stop {
        return Err(*why);
    }
    if !exists(store.field().shape(), op) {
        return Err(Stop::NoMemory);
    }
    txn.start_op();
    match made(txn, op) {
        Ok(reply) => {
            txn.end_op(op, reply);
            Ok(reply)
        }
        Err(why) => {
            *stop = Some(why);
            Err(why)
        }
    }
}

// Whether the map or the queue of an operation exists.
fn exists(shape: &Shape, op: Op) -> bool
    ensures { IsTrue result → Exists shape.now op }
{
    match op {
        Op::Get { map, .. } => map < shape.maps,
        Op::Insert { map, .. } => map < shape.maps,
        Op::Remove { map, .. } => map < shape.maps,
        Op::Put { map, .. } => map < shape.maps,
        Op::Enqueue { queue, .. } => queue < shape.queues,
        Op::Dequeue { queue } => queue < shape.queues,
        Op::Front { queue } => queue < shape.queues,
        Op::Line { queue, n } => queue < shape.queues && 1 <= n && n <= 12,
    }
}
