//! The microbenchmark of transactions over a hash table.
//!
//! Each thread runs so many transactions of 1 to 10 operations on a map of 1,048,576 buckets, with
//! keys below 1,000,000, half of which are there at first. Of `gets + 2` operations, `gets` are a
//! get, one is an insert and one a remove.

use crate::keys::half_full;
use crate::running::{Done, Load, opened, run_four, run_part, run_two};
use medley_transactions::{Shape, needed};
use std::alloc::Global;
use std::rt::Clock;
use std::thread::Threads;
use std::time::{CpuClock, Instant};

const BUCKETS: u32 = 1_048_576;

/// How many threads there are, what each runs, and how many lanes a store has, with how many nodes
/// each.
#[derive(Clone, Copy)]
pub(crate) struct Task {
    pub threads: u32,
    pub lanes: u32,
    pub load: Load,
    pub nodes: u32,
}

/// How long the threads took, in nanoseconds of the clock and of all processors, and what they did.
#[derive(Drop)]
pub(crate) struct Times {
    pub nanos: u64,
    pub processor_nanos: u64,
    pub done: Done,
}

/// Opens a store, and measures what 1, 2 or 4 threads do on it. `None` if memory runs out, if a
/// number is out of range, or if there are fewer lanes than threads.
pub(crate) fn timed<R: Threads + Sync + Clock + CpuClock>(
    rt: &R,
    alloc: Global,
    task: Task,
) -> Option<Times> {
    let start = half_full(alloc).ok()?;
    let base = u32::try_from(needed(&start)).ok()?;
    let shape = Shape::new(task.lanes, task.nodes, base, u32::MAX, 1, BUCKETS, 0).ok()?;
    let (store, pass) = opened(alloc, shape, &start)?;
    let processor_begin = rt.process_cpu_time().ok()?;
    let begin = Instant::now(rt).ok()?;
    let done = match task.threads {
        1 => Some(run_part(&store, pass, task.load, 0)),
        2 => run_two(rt, &store, pass, task.load, 0),
        4 => run_four(rt, &store, pass, task.load),
        _ => None,
    }?;
    let took = begin.elapsed(rt).ok()?;
    let processor_took = rt.process_cpu_time().ok()?.checked_sub(processor_begin)?;
    Some(Times {
        nanos: u64::try_from(took.as_nanos()).ok()?,
        processor_nanos: u64::try_from(processor_took.as_nanos()).ok()?,
        done,
    })
}
