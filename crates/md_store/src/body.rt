//! A body is run over a transaction.

ghost use Rattle.std.specs.Prelude.{◌≡◌, IfErr, IfOk, None};
ghost use Rattle.md_nbtc_law.specs.State.{shape_in};
ghost use Rattle.md_nbtc.specs.State.{state};
ghost use Rattle.md_store.specs.Transactions.{IsBegun};
ghost use Rattle.md_store_bodies.specs.Running.{BreaksOff, IsRunning};
ghost use Rattle.md_store_bodies.specs.Store.{IsPassOf};

use crate::txn::StoreTxn;
use md_history::{Body, Stop};
use md_nbtc::Txn;
use md_rule::Pass;
use md_store_law::StoreTheory;
use std::snapshot::Snapshot;

// Runs a body over a transaction that was just begun. Returns the transaction as it stands then;
// `out` is what the body returned.
pub(crate) fn run<'a, B: Body>(
    txn: Txn<'a, StoreTheory>,
    before: Snapshot<Pass<StoreTheory>>,
    body: &B,
    out: &mut Result<B::Reply, Stop>,
) -> Txn<'a, StoreTheory>
    requires begun { IsBegun before.value (state txn) }
    requires of { IsPassOf (state txn).field before.value }
    requires fits { B.fits body.now (shape_in (state txn)).maps (shape_in (state txn)).queues }
    ensures pass { result.pass.ghost_name ≡ txn.entry.pass.ghost_name }
    ensures field { (state result).field ≡ (state txn.entry).field }
    ensures tag { (state result).hand.tag ≡ (state txn.entry).hand.tag }
    ensures ok { IfOk out.new (λ r. IsRunning before.value (state result) None
        × B.did body.now (state result).hand.acts r) }
    ensures err { IfErr out.new (λ why. BreaksOff (B.makes body.now) before.value (state result) why) }
{
    let mut calls = StoreTxn::over(txn, before);
    *out = body.go(&mut calls);
    calls.done()
}
