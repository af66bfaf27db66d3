//! Two threads that move value between the same two keys, in transactions as plain code.

ghost use Rattle.std.specs.Prelude.{◌≡◌};
ghost use Rattle.md_store.specs.Store.{IsPassOf};

use super::*;
use md_history::Stop;
use md_store_interleavings::transfer;
use std::thread::{Threads, join};

// What each of the two keys has at first, and how many transfers each thread makes.
const START: u64 = 1000;

const TRANSFERS: u64 = 2000;

// Two lanes with nodes and attempts for the transfers of a thread, and two maps of one bucket.
fn two_lanes<R: Abort>(rt: &R) -> Shape {
    Shape::new(2, 100_000, 8, u32::MAX, 2, 1, 2).expect(rt, "a shape")
}

// Makes a transfer, again after each conflict. Returns what both keys had, or none after a limit.
fn found_by(
    store: &Store,
    pass: &mut StorePass,
    from: u64,
    to: u64,
    tries: u32,
) -> Option<(u64, u64)>
    requires of { IsPassOf store.now pass.old }
    requires maps { store.now.origin.shape.maps ≡ 2 }
    ensures { IsPassOf store.now pass.new }
{
    for tag in 0..tries {
        match transfer(
            store,
            &mut pass.pass,
            &mut pass.sets,
            u64::from(tag),
            from,
            to,
        ) {
            Ok(had) => return Some(had),
            Err(Stop::Conflict(_)) => {}
            Err(_) => return None,
        }
    }
    None
}

// Makes the transfers of a thread. Returns how many moved 1, if each saw the sum.
fn all_moved(store: &Store, pass: &mut StorePass, from: u64, to: u64) -> Option<u64>
    requires of { IsPassOf store.now pass.old }
    requires maps { store.now.origin.shape.maps ≡ 2 }
    ensures { IsPassOf store.now pass.new }
{
    let mut count = 0u64;
    for _ in 0..TRANSFERS {
        let (left, there) = found_by(store, pass, from, to, u32::MAX)?;
        if left.wrapping_add(there) != 2 * START {
            return None;
        }
        count = count.wrapping_add(left.min(1));
    }
    Some(count)
}

// What a thread did: how many of its transfers moved 1, and its pass.
#[derive(Drop)]
struct Moved {
    pass: StorePass,
    count: Option<u64>,
}

// What a thread does.
fn run_thread(store: &Store, mut pass: StorePass, from: u64, to: u64) -> Moved
    requires of { IsPassOf store.now pass }
    requires maps { store.now.origin.shape.maps ≡ 2 }
    ensures { IsPassOf store.now result.pass }
{
    let count = all_moved(store, &mut pass, from, to);
    Moved { pass, count }
}

// Two threads make transfers, one from key 1 to key 2 and the other one back. Returns how many
// moved 1 each way, and the pass of all lanes.
fn run_both<R: Abort + Threads + Sync>(
    rt: &R,
    store: &Store,
    mut pass: StorePass,
) -> (Option<u64>, Option<u64>, StorePass)
    requires of { IsPassOf store.now pass }
    requires maps { store.now.origin.shape.maps ≡ 2 }
    ensures { IsPassOf store.now result.2 }
{
    let half = store.split(&mut pass).expect(rt, "two lanes");
    let (mut one, other) = join(
        rt,
        || run_thread(store, pass, 1, 2),
        || run_thread(store, half, 2, 1),
    );
    store.join(&mut one.pass, other.pass);
    (one.count, other.count, one.pass)
}

#[test]
fn two_threads_move_value_by_hand(rt: HostRuntime) {
    let mut start = empty(&rt);
    start.put(0, 1, START).expect(&rt, "memory");
    start.put(0, 2, START).expect(&rt, "memory");
    let shape = two_lanes(&rt);
    let (store, pass) = opened(rt.alloc(), shape, &start).expect(&rt, "a store");
    let (there, back, pass) = run_both(&rt, &store, pass);
    let there = there.expect(&rt, "the sum each time");
    let back = back.expect(&rt, "the sum each time");
    let left = left_in(&rt, store, pass);
    let keys = left.maps().first().expect(&rt, "a map");
    let want = START.wrapping_sub(there).wrapping_add(back);
    let found = (keys.len(), keys.get(&1).copied(), keys.get(&2).copied());
    let other = (2 * START).wrapping_sub(want);
    same(&rt, &found, &(2, Some(want), Some(other)));
}
