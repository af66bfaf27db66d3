//! Looks at the field and at a pass between two transactions.

ghost use Rattle.std.specs.Prelude.{◌≡◌, None};
ghost use Rattle.std.specs.List.{Contains};
ghost use Rattle.md_rule.specs.Kept.{KeepsLanes};
ghost use Rattle.md_rule.specs.Lanes.{AreLanes};
ghost use Rattle.md_store.specs.Store.{IsPassOf};

use md_nbtc::{decided_status, take_left_out};
use md_rule::Pass;
use md_store::Store;
use md_store_law::StoreTheory;
use md_words::{Status, StatusWord};

/// Returns what stands in a word of the field, or `u64::MAX` if there is no such word.
pub fn word(pass: &mut Pass<StoreTheory>, store: &Store, word: u32) -> u64
    requires { IsPassOf store.now pass.old }
    ensures { IsPassOf store.now pass.new }
{
    if u64::from(word) >= store.field().shape().words() {
        return u64::MAX;
    }
    pass.load(store.field(), word)
}

/// The first lane of a pass.
pub fn first_lane(pass: &Pass<StoreTheory>) -> u32
    ensures { Contains pass.now.view.lanes result }
{
    let _ = pass.shape();
    pass.lane(0)
}

/// Settles the last transaction of a pass's first lane, and returns whether it was committed. It
/// returns false if the lane has begun no attempt. An attempt that the pass has in hand is left.
pub fn settled(pass: &mut Pass<StoreTheory>, store: &Store) -> bool
    requires { IsPassOf store.now pass.old }
    ensures { IsPassOf store.now pass.new }
{
    pass.mark_leave(store.field());
    let lane = first_lane(pass);
    settled_lane(pass, store, lane)
}

// Settles the last transaction of a lane.
fn settled_lane(pass: &mut Pass<StoreTheory>, store: &Store, lane: u32) -> bool
    requires of { IsPassOf store.now pass.old }
    requires idle { pass.old.view.hand ≡ None }
    requires lane { Contains pass.old.view.lanes lane }
    ensures { IsPassOf store.now pass.new }
{
    kept(pass);
    if pass.tries_taken(lane) == 0 {
        return false;
    }
    take_left_out(store.field(), pass, lane);
    let found = decided_status(store.field(), pass, lane);
    StatusWord::of(found).status == Status::Committed
}

// What a pass keeps of its lanes.
fn kept(pass: &Pass<StoreTheory>)
    ensures lanes { AreLanes pass.now.shape pass.now.view.lanes }
    ensures kept { KeepsLanes pass.now.shape pass.now.view pass.now.shares }
{
    let _ = pass.shape();
}
