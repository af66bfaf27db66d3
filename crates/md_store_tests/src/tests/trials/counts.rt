//! Threads that count by the same key and the same queue at once.

use super::running::{Ran, TURNS, run_on_new};
use super::*;
use std::thread::Threads;

const KEY: u64 = 7;

// What a body finds in the map, and in the queue.
type Found = (Option<u64>, Option<u64>);

// Counts from 0 on, in four threads.
fn counted<R: Abort + AllocGlobal + Threads + Sync>(rt: &R) -> Ran<Found> {
    let mut start = empty(rt);
    start.put(0, KEY, 0).expect(rt, "memory");
    start.push(0, 0).expect(rt, "memory");
    let mut bodies = Vec::new(rt.alloc());
    for _ in 0..4 {
        bodies.push(counts(rt)).expect(rt, "memory");
    }
    run_on_new(rt, &start, &bodies)
}

// The bodies of a thread.
fn counts<R: Abort + AllocGlobal>(rt: &R) -> Vec<Count> {
    let mut counts = Vec::new(rt.alloc());
    for _ in 0..TURNS {
        counts.push(Count { key: KEY }).expect(rt, "memory");
    }
    counts
}

// The numbers that threads found in the map, sorted, if each was in the queue, too, and they rose
// for each thread.
fn numbers_found<R: Abort + AllocGlobal>(rt: &R, threads: &[Vec<Found>]) -> Option<Vec<u64>> {
    let mut numbers = Vec::new(rt.alloc());
    for found in threads {
        let mut last = None;
        for (value, copy) in found {
            if value != copy || *value <= last {
                return None;
            }
            last = *value;
            numbers.push(value.unwrap_or(0)).expect(rt, "memory");
        }
    }
    numbers.sort().expect(rt, "memory");
    Some(numbers)
}

// Whether these are the numbers from 0 on.
fn are_all_numbers(numbers: &[u64]) -> bool {
    for (want, number) in numbers.iter().enumerate() {
        if *number != want as u64 {
            return false;
        }
    }
    true
}

// How many keys the first map has and how many values the first queue, and the count in each.
fn counts_in(contents: &Contents) -> Option<(usize, usize, Found)> {
    let (map, queue) = (contents.maps().first()?, contents.queues().first()?);
    let found = (map.get(&KEY).copied(), queue.front().copied());
    Some((map.len(), queue.len(), found))
}

// How many numbers threads found, and whether these are the numbers from 0 on.
fn found_by<R: Abort + AllocGlobal>(rt: &R, threads: &[Vec<Found>]) -> (u64, bool) {
    let numbers = numbers_found(rt, threads).expect(rt, "copies that rise");
    (numbers.len() as u64, are_all_numbers(&numbers))
}

#[test]
fn four_threads_count(rt: HostRuntime) {
    let ran = counted(&rt);
    let all = 4 * TURNS as u64;
    same(&rt, &found_by(&rt, &ran.replies), &(all, true));
    let count = Some(all);
    same(&rt, &counts_in(&ran.left), &Some((1, 1, (count, count))));
}
