//! A shift over a store of its own.

ghost use Rattle.std.specs.Prelude.{◌≡◌, ◌≤◌, ◌+◌, ◌<◌, [], ℕ, length, map, IfOk};
ghost use Rattle.md_words.specs.Layout.{HasNumbers};
ghost use Rattle.md_many_attempts.specs.ByCaller.{lists_in};
ghost use Rattle.md_store.specs.Store.{front_in};
ghost use Rattle.example_jobs.specs.Jobs.{Holds};
ghost use Rattle.example_jobs.specs.Shifts.{IsShift};

use crate::places::{MAPS, MAX_JOBS, MAX_WORKERS, PRIORITIES};
use crate::shifts::Shift;
use md_history::Contents;
use md_many::{FreeGate, Many, run_lines};
use md_store::{Store, StorePass};
use md_words::Shape;
use std::alloc::{AllocError, Global};
use std::thread::Threads;

// How many nodes each worker has until the store is renewed.
const NODES: u32 = 4_096;

// How many attempts each worker has until the store is renewed.
const TRIES: u32 = 16_384;

// The buckets of each map.
const BUCKETS: u32 = 1_024;

/// Jobs numbered from 0 that wait in the queues: job j is in queue j mod `PRIORITIES`. `AllocError`
/// if memory runs out.
pub fn all_waiting(alloc: Global, jobs: u32) -> Result<Contents, AllocError>
    ensures { IfOk result (λ c. Holds jobs c) }
{
    let mut contents = Contents::empty(alloc, MAPS, PRIORITIES)?;
    for job in 0..jobs {
        contents.push(job % PRIORITIES, job as u64)?;
    }
    Ok(contents)
}

// A lane for each worker, and base nodes for the queues and the jobs.
fn shape_of(workers: u32, jobs: u32) -> Shape
    requires workers { (1 ≤ workers) × (workers ≤ MAX_WORKERS) }
    requires jobs { jobs ≤ MAX_JOBS }
    ensures { HasNumbers result workers NODES (PRIORITIES + jobs) TRIES MAPS BUCKETS PRIORITIES }
{
    Shape::new(
        workers,
        NODES,
        PRIORITIES + jobs,
        TRIES,
        MAPS,
        BUCKETS,
        PRIORITIES,
    )
    .unwrap()
}

/// Runs a shift of `workers` workers, 1 to `MAX_WORKERS`, in threads, over a concurrent store that
/// begins with these contents. The contents hold `jobs` jobs, at most `MAX_JOBS`, each in one
/// place. Each move of each worker is committed once (`Shift`). Afterwards each job stands in one
/// place again, whatever the threads do. Another shift may begin with the contents that are
/// returned.
///
/// A lane of the store has 4,096 nodes and 16,384 attempts until the store is renewed.
///
/// `AllocError` if memory runs out.
pub fn run_shift<R: Threads + Sync>(
    rt: &R,
    alloc: Global,
    start: &Contents,
    jobs: u32,
    workers: u32,
) -> Result<Many<Option<u64>, StorePass>, AllocError>
    requires start { Holds jobs start.now }
    requires jobs { jobs ≤ MAX_JOBS }
    requires workers { (1 ≤ workers) × (workers ≤ MAX_WORKERS) }
    ensures holds { IfOk result (λ m. Holds jobs m.contents) }
    ensures moves { IfOk result (λ m. IsShift workers jobs start.now
        (map front_in m.fronts.items) (lists_in m.replies.items) m.contents) }
{
    let Ok((store, pass)) = Store::open(alloc, shape_of(workers, jobs), start) else {
        return Err(AllocError);
    };
    let shift = Shift { jobs, workers };
    let many = run_lines(rt, alloc, store, pass, &shift, TRIES, &FreeGate)?;
    Ok(many)
}
