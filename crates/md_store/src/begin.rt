//! How a transaction of a store begins.

ghost use Rattle.std.specs.Prelude.{◌≡◌, ◌↔◌, [], Err, IfErr, IfOk};
ghost use Rattle.std.specs.Borrow.{sem, RestsIfErr};
ghost use Rattle.md_arena.specs.Left.{HasTryLeft, NoLane};
ghost use Rattle.md_nbtc_law.specs.Ending.{BeginsNot, BeginsTransaction};
ghost use Rattle.md_nbtc_law.specs.Going.{IsGoing};
ghost use Rattle.md_nbtc.specs.State.{begun_state};
ghost use Rattle.md_store_law.specs.Store.{store as meaning};
ghost use Rattle.md_store.specs.PassRow.{pass_row};
ghost use Rattle.md_store_bodies.specs.Store.{IsPassOf};

use crate::store::Store;
use md_history::Limit;
use md_nbtc::{Begun, Txn};
use md_rule::Pass;
use md_store_law::StoreTheory;

impl Store {
    /// Begins a transaction with a tag, which may be any number, by the pass's lowest lane that has
    /// an attempt left. `Limit::Tries` exactly if each lane of the pass has begun all of its
    /// attempts; then the pass has nothing in hand, and is else as it was. It takes no memory.
    /// `Txn::begin` says more, and counts the steps. `Begun::with` lends it sets, and a `StoreTxn`
    /// makes its calls.
    pub fn begin<'a>(
        pass: &'a mut Pass<StoreTheory>,
        store: &'a Store,
        tag: u64,
    ) -> Result<Begun<'a, StoreTheory>, Limit>
        requires { IsPassOf store.now pass.old }
        ensures* refused { sem 𝓛 (RestsIfErr pass_row pass.entry
            (λ t. t.pass.ghost_name) result
            (λ q. BeginsNot meaning pass.old store.now.origin q)) }
        ensures pass { IfOk result (λ t. t.pass.ghost_name ≡ pass.entry.ghost_name) }
        ensures field { IfOk result (λ t. (begun_state t).field ≡ store.now) }
        ensures begun { IfOk result (λ t. BeginsTransaction pass.old tag (begun_state t)) }
        ensures going { IfOk result (λ t. IsGoing meaning (begun_state t) []) }
        ensures none { (result ≡ Err Limit.Tries) ↔ NoLane pass.old (HasTryLeft pass.old) }
        ensures limit { IfErr result (λ limit. limit ≡ Limit.Tries) }
    {
        Txn::begin(pass, &store.field, tag)
    }
}
