//! Threads that put keys and values of their own into the same bucket and the same queue at once.

use super::running::{Ran, TURNS, run_on_new};
use super::*;
use std::collections::{BTreeMap, VecDeque};
use std::thread::Threads;

// The turns of a thread.
fn turns_of<R: Abort + AllocGlobal>(rt: &R, thread: u32) -> Vec<Turn> {
    let mut turns = Vec::new(rt.alloc());
    for number in 0..TURNS {
        turns.push(Turn { thread, number }).expect(rt, "memory");
    }
    turns
}

// Four threads take turns.
fn turned<R: Abort + AllocGlobal + Threads + Sync>(rt: &R) -> Ran<Turned> {
    let mut own = Vec::new(rt.alloc());
    for thread in 0..4 {
        own.push(turns_of(rt, thread)).expect(rt, "memory");
    }
    run_on_new(rt, &empty(rt), &own)
}

// Whether all turns of a thread were run, and each met the thread's keys as it had left them.
fn are_whole(turns: &[Turned]) -> bool {
    let mut number = 0u64;
    for turn in turns {
        if !turn.absent || turn.gone != number.checked_sub(KEPT as u64) {
            return false;
        }
        number = number.wrapping_add(1);
    }
    number == TURNS as u64
}

// Adds the values that a thread took from the queue.
fn add_taken<R: Abort>(rt: &R, values: &mut Vec<u64>, turns: &[Turned]) {
    for turn in turns {
        if let Some(value) = turn.first {
            values.push(value).expect(rt, "memory");
        }
    }
}

// Adds the values that are left in the queue.
fn add_left<R: Abort>(rt: &R, values: &mut Vec<u64>, left: &VecDeque<u64>) {
    for value in left.iter() {
        values.push(*value).expect(rt, "memory");
    }
}

// Whether all turns of a thread were run, and the values that it took and those that are left stand
// in the order of each thread.
fn is_thread_right<R: Abort + AllocGlobal>(rt: &R, turns: &[Turned], left: &VecDeque<u64>) -> bool {
    let mut values = Vec::new(rt.alloc());
    add_taken(rt, &mut values, turns);
    add_left(rt, &mut values, left);
    are_whole(turns) && are_in_order(&values)
}

// Whether the values of each thread stand in its order.
fn are_in_order(values: &[u64]) -> bool {
    let mut next = [0u64; 4];
    for value in values {
        let thread = (*value % 4) as usize;
        if *value < next[thread] {
            return false;
        }
        next[thread] = value.wrapping_add(1);
    }
    true
}

// The values that threads took from the queue and those that are left in it, sorted, if all turns
// of each thread were run, and it took its values in order.
fn values_of<R: Abort + AllocGlobal>(
    rt: &R,
    threads: &[Vec<Turned>],
    left: &VecDeque<u64>,
) -> Option<Vec<u64>> {
    let mut values = Vec::new(rt.alloc());
    for turns in threads {
        if !is_thread_right(rt, turns, left) {
            return None;
        }
        add_taken(rt, &mut values, turns);
    }
    add_left(rt, &mut values, left);
    values.sort().expect(rt, "memory");
    Some(values)
}

// The values of all turns.
fn all_values<R: Abort + AllocGlobal>(rt: &R) -> Vec<u64> {
    let mut values = Vec::new(rt.alloc());
    for number in 0..TURNS {
        for thread in 0..4 {
            values
                .push(key_of(Turn { thread, number }))
                .expect(rt, "memory");
        }
    }
    values
}

// The keys that are left of all turns.
fn last_keys<R: Abort + AllocGlobal>(rt: &R) -> BTreeMap<u64, u64> {
    let mut keys = BTreeMap::new(rt.alloc());
    for number in TURNS - KEPT..TURNS {
        for thread in 0..4 {
            let key = key_of(Turn { thread, number });
            let kept: Result<_, _> = keys.insert(key, number as u64);
            kept.expect(rt, "memory");
        }
    }
    keys
}

// Whether the values that threads took and those that are left in the first queue are those of all
// turns.
fn are_all_there<R: Abort + AllocGlobal>(rt: &R, threads: &[Vec<Turned>], left: &Contents) -> bool {
    let queue = left.queues().first().expect(rt, "a queue");
    let values = values_of(rt, threads, queue).expect(rt, "whole turns in order");
    values == all_values(rt)
}

#[test]
fn four_threads_take_turns(rt: HostRuntime) {
    let Ran { replies, left } = turned(&rt);
    same(&rt, &are_all_there(&rt, &replies, &left), &true);
    same(&rt, &left.maps().first(), &Some(&last_keys(&rt)));
}
