//! The operations of a transaction on its maps, each from its begin to its end.

ghost use Rattle.std.specs.Prelude.{◌≡◌, ◌<◌, ℕ, IfOk};
ghost use Rattle.md_history.specs.declared.acts.Op.TheVariants.{Get, Insert, Remove, Put};
ghost use Rattle.md_history.specs.declared.acts.Reply.TheVariants.{Flag, Value};
ghost use Rattle.md_history.specs.declared.stops.Limit.TheVariants.{Reads, Writes};
ghost use Rattle.md_nbtc_law.specs.Calls.{AfterStop};
ghost use Rattle.md_nbtc_law.specs.State.{shape_in};
ghost use Rattle.md_nbtc.specs.State.{state};
ghost use Rattle.md_list.specs.Operations.{Answers, HasStopButNodes, IsBegun, OperationGoesOn};
ghost use Rattle.md_list.specs.Refusals.{NeedsRead, NeedsUnlink, RefusedBy};
ghost use Rattle.md_list.specs.Walking.{IsHeadOf};
ghost use Rattle.md_store_law.specs.Store.{store};
ghost use Rattle.md_store_bodies.specs.Running.{IsRunning, MakesCall, refusal_of};

use crate::broken::Broken;
use md_history::{Op, Reply, Stop};
use md_list::{get, insert, put, remove};
use md_nbtc::Txn;
use md_rule::Pass;
use md_store_law::StoreTheory;
use std::snapshot::Snapshot;

// Looks up a key.
#[inline]
fn look_up<'a>(txn: &mut Txn<'a, StoreTheory>, head: u32, key: u64) -> Result<Option<u64>, Stop>
    requires begun { IsBegun store (state txn.old) }
    requires head { (map : ℕ) × IsHeadOf (shape_in (state txn.old)) map key head }
    ensures pass { txn.new.pass.ghost_name ≡ txn.old.pass.ghost_name }
    ensures leaves { OperationGoesOn store (state txn.old) (state txn.new) 1 0 0 }
    ensures answer { IfOk result (λ value. Answers store (state txn.old) (state txn.new) head key
        (λ map. Get map key) (Value value)) }
    ensures stops { AfterStop (state txn.old).stop (state txn.old) (state txn.new) result
        (HasStopButNodes (state txn.new) result) }
    ensures no_read { RefusedBy Reads store (state txn.old) (state txn.new) result
        (NeedsRead store (state txn.old) head key (λ map. Get map key)) }
    ensures no_slot { RefusedBy Writes store (state txn.old) (state txn.new) result
        (NeedsUnlink store (state txn.old) head key) }
{
    get(txn, head, key)
}

/// `TxCalls::get` over a transaction that began with the pass `before`. `broken` is the call that
/// was refused first, if one was.
pub fn get_in<'a>(
    txn: &mut Txn<'a, StoreTheory>,
    broken: &mut Option<Broken>,
    before: &Snapshot<Pass<StoreTheory>>,
    map: u32,
    key: u64,
) -> Result<Option<u64>, Stop>
    requires running { IsRunning before.now.value (state txn.old) (refusal_of broken.old) }
    requires map { map < (shape_in (state txn.old)).maps }
    ensures pass { txn.new.pass.ghost_name ≡ txn.old.pass.ghost_name }
    ensures makes { MakesCall before.now.value (Get map key) Value (state txn.old) (state txn.new)
        (refusal_of broken.old) (refusal_of broken.new) result }
{
    let _ = before;
    if let Some(b) = broken {
        return Err(b.stop);
    }
    let op = Op::Get { map, key };
    txn.start_op();
    let head = txn.shape().map_head(map, key);
    match look_up(txn, head, key) {
        Ok(value) => {
            txn.end_op(op, Reply::Value(value));
            Ok(value)
        }
        Err(stop) => {
            *broken = Some(Broken { stop, op });
            Err(stop)
        }
    }
}

/// `TxCalls::insert`, in the same way.
pub fn insert_in<'a>(
    txn: &mut Txn<'a, StoreTheory>,
    broken: &mut Option<Broken>,
    before: &Snapshot<Pass<StoreTheory>>,
    map: u32,
    key: u64,
    value: u64,
) -> Result<bool, Stop>
    requires running { IsRunning before.now.value (state txn.old) (refusal_of broken.old) }
    requires map { map < (shape_in (state txn.old)).maps }
    ensures pass { txn.new.pass.ghost_name ≡ txn.old.pass.ghost_name }
    ensures makes { MakesCall before.now.value (Insert map key value) Flag (state txn.old) (state txn.new)
        (refusal_of broken.old) (refusal_of broken.new) result }
{
    let _ = before;
    if let Some(b) = broken {
        return Err(b.stop);
    }
    let op = Op::Insert { map, key, value };
    txn.start_op();
    let head = txn.shape().map_head(map, key);
    match insert(txn, head, key, value) {
        Ok(absent) => {
            txn.end_op(op, Reply::Flag(absent));
            Ok(absent)
        }
        Err(stop) => {
            *broken = Some(Broken { stop, op });
            Err(stop)
        }
    }
}

/// `TxCalls::remove`, in the same way.
pub fn remove_in<'a>(
    txn: &mut Txn<'a, StoreTheory>,
    broken: &mut Option<Broken>,
    before: &Snapshot<Pass<StoreTheory>>,
    map: u32,
    key: u64,
) -> Result<Option<u64>, Stop>
    requires running { IsRunning before.now.value (state txn.old) (refusal_of broken.old) }
    requires map { map < (shape_in (state txn.old)).maps }
    ensures pass { txn.new.pass.ghost_name ≡ txn.old.pass.ghost_name }
    ensures makes { MakesCall before.now.value (Remove map key) Value (state txn.old) (state txn.new)
        (refusal_of broken.old) (refusal_of broken.new) result }
{
    let _ = before;
    if let Some(b) = broken {
        return Err(b.stop);
    }
    let op = Op::Remove { map, key };
    txn.start_op();
    let head = txn.shape().map_head(map, key);
    match remove(txn, head, key) {
        Ok(value) => {
            txn.end_op(op, Reply::Value(value));
            Ok(value)
        }
        Err(stop) => {
            *broken = Some(Broken { stop, op });
            Err(stop)
        }
    }
}

/// `TxCalls::put`, in the same way.
pub fn put_in<'a>(
    txn: &mut Txn<'a, StoreTheory>,
    broken: &mut Option<Broken>,
    before: &Snapshot<Pass<StoreTheory>>,
    map: u32,
    key: u64,
    value: u64,
) -> Result<Option<u64>, Stop>
    requires running { IsRunning before.now.value (state txn.old) (refusal_of broken.old) }
    requires map { map < (shape_in (state txn.old)).maps }
    ensures pass { txn.new.pass.ghost_name ≡ txn.old.pass.ghost_name }
    ensures makes { MakesCall before.now.value (Put map key value) Value (state txn.old) (state txn.new)
        (refusal_of broken.old) (refusal_of broken.new) result }
{
    let _ = before;
    if let Some(b) = broken {
        return Err(b.stop);
    }
    let op = Op::Put { map, key, value };
    txn.start_op();
    let head = txn.shape().map_head(map, key);
    match put(txn, head, key, value) {
        Ok(old) => {
            txn.end_op(op, Reply::Value(old));
            Ok(old)
        }
        Err(stop) => {
            *broken = Some(Broken { stop, op });
            Err(stop)
        }
    }
}
