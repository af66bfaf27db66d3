//! The operations of a transaction on its queues, each from its begin to its end.

ghost use Rattle.std.specs.Prelude.{◌≡◌, ◌<◌, IfErr, IfOk};
ghost use Rattle.md_history.specs.declared.acts.Op.TheVariants.{Dequeue, Enqueue, Front, Line as TheLine};
ghost use Rattle.md_history.specs.declared.acts.Reply.TheVariants.{Line as InLine, Nothing, Value};
ghost use Rattle.md_history.specs.declared.stops.Limit.TheVariants.{Writes};
ghost use Rattle.md_history.specs.Calls.{IsLineLength};
ghost use Rattle.md_nbtc_law.specs.State.{shape_in};
ghost use Rattle.md_nbtc.specs.State.{state};
ghost use Rattle.md_queue.specs.Operations.{OperationAnswered, IsBegun, IsNotBy};
ghost use Rattle.md_queue.specs.Operations.{RefusedOtherwise, front_reads};
ghost use Rattle.md_queue.specs.Refusals.{AsksFor, RefusesReads};
ghost use Rattle.md_store_law.specs.Store.{store};
ghost use Rattle.md_store_bodies.specs.Running.{IsRunning, MakesCall, refusal_of};

use crate::broken::Broken;
use md_history::{Line, Op, Reply, Stop};
use md_nbtc::Txn;
use md_queue::{dequeue, enqueue, front, line};
use md_rule::Pass;
use md_store_law::StoreTheory;
use std::snapshot::Snapshot;

/// `TxCalls::enqueue` over a transaction that began with the pass `before`. `broken` is the call that
/// was refused first, if one was.
pub fn enqueue_in<'a>(
    txn: &mut Txn<'a, StoreTheory>,
    broken: &mut Option<Broken>,
    before: &Snapshot<Pass<StoreTheory>>,
    queue: u32,
    value: u64,
) -> Result<(), Stop>
    requires running { IsRunning before.now.value (state txn.old) (refusal_of broken.old) }
    requires queue { queue < (shape_in (state txn.old)).queues }
    ensures pass { txn.new.pass.ghost_name ≡ txn.old.pass.ghost_name }
    ensures makes { MakesCall before.now.value (Enqueue queue value) (λ _. Nothing) (state txn.old) (state txn.new)
        (refusal_of broken.old) (refusal_of broken.new) result }
{
    let _ = before;
    if let Some(b) = broken {
        return Err(b.stop);
    }
    let op = Op::Enqueue { queue, value };
    txn.start_op();
    match enqueue(txn, queue, value) {
        Ok(()) => {
            txn.end_op(op, Reply::Nothing);
            Ok(())
        }
        Err(stop) => {
            *broken = Some(Broken { stop, op });
            Err(stop)
        }
    }
}

/// `TxCalls::dequeue`, in the same way.
pub fn dequeue_in<'a>(
    txn: &mut Txn<'a, StoreTheory>,
    broken: &mut Option<Broken>,
    before: &Snapshot<Pass<StoreTheory>>,
    queue: u32,
) -> Result<Option<u64>, Stop>
    requires running { IsRunning before.now.value (state txn.old) (refusal_of broken.old) }
    requires queue { queue < (shape_in (state txn.old)).queues }
    ensures pass { txn.new.pass.ghost_name ≡ txn.old.pass.ghost_name }
    ensures makes { MakesCall before.now.value (Dequeue queue) Value (state txn.old) (state txn.new)
        (refusal_of broken.old) (refusal_of broken.new) result }
{
    let _ = before;
    if let Some(b) = broken {
        return Err(b.stop);
    }
    let op = Op::Dequeue { queue };
    txn.start_op();
    match dequeue(txn, queue) {
        Ok(value) => {
            txn.end_op(op, Reply::Value(value));
            Ok(value)
        }
        Err(stop) => {
            *broken = Some(Broken { stop, op });
            Err(stop)
        }
    }
}

// Looks at the first value.
#[inline]
fn look<'a>(txn: &mut Txn<'a, StoreTheory>, queue: u32) -> Result<Option<u64>, Stop>
    requires begun { IsBegun store (state txn.old) queue }
    ensures pass { txn.new.pass.ghost_name ≡ txn.old.pass.ghost_name }
    ensures answer { IfOk result (λ value. OperationAnswered store (state txn.old) (state txn.new)
        (Front queue) (Value value) (front_reads value) 0 0) }
    ensures stop { IfErr result (RefusedOtherwise store (state txn.old) (state txn.new) 2 0) }
    ensures reads { IfErr result (RefusesReads store (state txn.old) (state txn.new)
        (AsksFor (Front queue))) }
    ensures no_writes { IfErr result (IsNotBy (state txn.old) Writes) }
{
    front(txn, queue)
}

/// `TxCalls::front`, in the same way.
pub fn front_in<'a>(
    txn: &mut Txn<'a, StoreTheory>,
    broken: &mut Option<Broken>,
    before: &Snapshot<Pass<StoreTheory>>,
    queue: u32,
) -> Result<Option<u64>, Stop>
    requires running { IsRunning before.now.value (state txn.old) (refusal_of broken.old) }
    requires queue { queue < (shape_in (state txn.old)).queues }
    ensures pass { txn.new.pass.ghost_name ≡ txn.old.pass.ghost_name }
    ensures makes { MakesCall before.now.value (Front queue) Value (state txn.old) (state txn.new)
        (refusal_of broken.old) (refusal_of broken.new) result }
{
    let _ = before;
    if let Some(b) = broken {
        return Err(b.stop);
    }
    let op = Op::Front { queue };
    txn.start_op();
    match look(txn, queue) {
        Ok(value) => {
            txn.end_op(op, Reply::Value(value));
            Ok(value)
        }
        Err(stop) => {
            *broken = Some(Broken { stop, op });
            Err(stop)
        }
    }
}

/// `TxCalls::line`, in the same way.
pub fn line_in<'a>(
    txn: &mut Txn<'a, StoreTheory>,
    broken: &mut Option<Broken>,
    before: &Snapshot<Pass<StoreTheory>>,
    queue: u32,
    n: u8,
) -> Result<Line, Stop>
    requires running { IsRunning before.now.value (state txn.old) (refusal_of broken.old) }
    requires queue { queue < (shape_in (state txn.old)).queues }
    requires n { IsLineLength n }
    ensures pass { txn.new.pass.ghost_name ≡ txn.old.pass.ghost_name }
    ensures makes { MakesCall before.now.value (TheLine queue n) InLine (state txn.old) (state txn.new)
        (refusal_of broken.old) (refusal_of broken.new) result }
{
    let _ = before;
    if let Some(b) = broken {
        return Err(b.stop);
    }
    let op = Op::Line { queue, n };
    txn.start_op();
    match line(txn, queue, n) {
        Ok(line) => {
            txn.end_op(op, Reply::Line(line));
            Ok(line)
        }
        Err(stop) => {
            *broken = Some(Broken { stop, op });
            Err(stop)
        }
    }
}
