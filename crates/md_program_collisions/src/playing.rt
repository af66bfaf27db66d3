//! Playing scripts in threads over a store with one bucket for each map.

ghost use Rattle.std.specs.Prelude.{◌≡◌, ◌≤◌, length};

use crate::shapes::narrow_shape;
use md_book::{LEVELS, MAPS};
use md_history::Contents;
use md_many::Gate;
use md_orders::Scripts;
use md_rounds::{Outcome, run_all};
use md_store::{Store, StorePass};
use std::alloc::{AllocError, Global};
use std::thread::Threads;

/// Plays the scripts of 1 to 64 callers in threads, as `play_on_store` of md_program_play does, over a
/// store whose maps have one bucket each. So all keys of a map are in one list, and callers meet
/// there whatever their lines are. A lane has 64 nodes and `tries` attempts, at least 1, until the
/// store is renewed. `AllocError` if memory runs out.
pub fn play_narrow<R, G>(
    rt: &R,
    alloc: Global,
    scripts: &Scripts,
    tries: u32,
    gate: &G,
) -> Result<Outcome<StorePass>, AllocError>
where
    R: Threads + Sync,
    G: Gate + Sync,
    requires callers { (1 ≤ length scripts.now) × (length scripts.now ≤ 64) }
    requires tries { 1 ≤ tries }
{
    let shape = narrow_shape(scripts.callers(), tries);
    let start = Contents::empty(alloc, MAPS, LEVELS)?;
    // Empty contents need one node for each queue, and the store has as many base nodes. So `open`
    // fails only if memory runs out.
    let Ok((store, pass)) = Store::open(alloc, shape, &start) else {
        return Err(AllocError);
    };
    run_all(rt, alloc, store, pass, scripts, tries, gate)
}
