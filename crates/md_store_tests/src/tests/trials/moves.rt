//! Threads that move value between the same two keys at once.

use super::running::{TURNS, run_on_new};
use super::*;
use std::thread::Threads;

// What each of the two keys has at first.
const START: u64 = 1000;

// How many keys a map has, and what key 1 has and key 2.
type Keys = (usize, Option<u64>, Option<u64>);

// The transfers of a thread: those of an even one go from key 1 to key 2, those of an odd one go
// back. Every third only looks.
fn transfers_of<R: Abort + AllocGlobal>(rt: &R, thread: u64) -> Vec<Transfer> {
    let (from, to) = if thread % 2 == 0 { (1, 2) } else { (2, 1) };
    let mut transfers = Vec::new(rt.alloc());
    for number in 0..TURNS {
        let moves = number % 3 != 0;
        transfers
            .push(Transfer { from, to, moves })
            .expect(rt, "memory");
    }
    transfers
}

// How much transfers moved, if all were run and each saw the sum.
fn moved(transfers: &[Transfer], found: &[(u64, u64)]) -> Option<u64> {
    if found.len() != transfers.len() {
        return None;
    }
    let mut moved = 0u64;
    for (transfer, (left, there)) in transfers.iter().zip(found) {
        if left.wrapping_add(*there) != 2 * START {
            return None;
        }
        if transfer.moves && *left > 0 {
            moved = moved.wrapping_add(1);
        }
    }
    Some(moved)
}

// What key 1 has after transfers of some threads, if each saw the sum.
fn left_after(transfers: &[Vec<Transfer>], found: &[Vec<(u64, u64)>]) -> Option<u64> {
    if found.len() != transfers.len() {
        return None;
    }
    let mut left = START;
    let mut back = false;
    for (transfers, found) in transfers.iter().zip(found) {
        let moved = moved(transfers, found)?;
        left = if back {
            left.wrapping_add(moved)
        } else {
            left.wrapping_sub(moved)
        };
        back = !back;
    }
    Some(left)
}

// The transfers of each thread.
fn transfers_of_all<R: Abort + AllocGlobal>(rt: &R, threads: u64) -> Vec<Vec<Transfer>> {
    let mut all = Vec::new(rt.alloc());
    for thread in 0..threads {
        all.push(transfers_of(rt, thread)).expect(rt, "memory");
    }
    all
}

// The two keys, with the same value.
fn two_keys<R: Abort + AllocGlobal>(rt: &R) -> Contents {
    let mut start = empty(rt);
    start.put(0, 1, START).expect(rt, "memory");
    start.put(0, 2, START).expect(rt, "memory");
    start
}

// How many keys the first map has, and what key 1 has and key 2.
fn keys_in(contents: &Contents) -> Option<Keys> {
    let keys = contents.maps().first()?;
    Some((keys.len(), keys.get(&1).copied(), keys.get(&2).copied()))
}

// Threads make transfers, and each sees the sum. What key 1 has after them, and what the keys have
// in the end.
fn sums_after<R: Abort + AllocGlobal + Threads + Sync>(
    rt: &R,
    own: &[Vec<Transfer>],
) -> (u64, Option<Keys>) {
    let ran = run_on_new(rt, &two_keys(rt), own);
    let left = left_after(own, &ran.replies).expect(rt, "the sum each time");
    (left, keys_in(&ran.left))
}

// So many threads move value. Each saw the sum, and the end has what the moves add up to.
fn keep_a_sum<R: Abort + AllocGlobal + Threads + Sync>(rt: &R, threads: u64) {
    let (left, keys) = sums_after(rt, &transfers_of_all(rt, threads));
    let there = (2 * START).wrapping_sub(left);
    same(rt, &keys, &Some((2, Some(left), Some(there))));
}

#[test]
fn two_threads_keep_a_sum(rt: HostRuntime) {
    keep_a_sum(&rt, 2);
}

#[test]
fn four_threads_keep_a_sum(rt: HostRuntime) {
    keep_a_sum(&rt, 4);
}
