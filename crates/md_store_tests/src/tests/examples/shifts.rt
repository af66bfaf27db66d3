//! Shifts of few jobs and workers.

ghost use Rattle.std.specs.Prelude.{◌≤◌};
ghost use Rattle.example_jobs.specs.declared.places.TheConstants.{MAX_JOBS, MAX_WORKERS};
ghost use Rattle.example_jobs.specs.Jobs.{Holds};

use crate::tests::same;
use example_jobs::{FINISHED, RUNNING, all_waiting, run_shift};
use md_history::Contents;
use md_many::Many;
use md_store::StorePass;
use std::alloc::AllocGlobal;
use std::collections::BTreeMap;
use std::process::Abort;
use std::thread::Threads;

// Runs a shift, and says of it only that the jobs are still there.
fn after_shift<R: Abort + AllocGlobal + Threads + Sync>(
    rt: &R,
    start: &Contents,
    jobs: u32,
    workers: u32,
) -> Many<Option<u64>, StorePass>
    requires start { Holds jobs start.now }
    requires jobs { jobs ≤ MAX_JOBS }
    requires workers { (1 ≤ workers) × (workers ≤ MAX_WORKERS) }
    ensures { Holds jobs result.contents }
{
    run_shift(rt, rt.alloc(), start, jobs, workers).expect(rt, "memory")
}

// The jobs that are finished.
fn finished<'a>(rt: &impl Abort, contents: &'a Contents) -> &'a BTreeMap<u64, u64> {
    contents.maps().get(FINISHED as usize).expect(rt, "a map")
}

// All jobs are finished, and none runs or waits.
fn are_finished(rt: &impl Abort, contents: &Contents, jobs: u32) {
    let finished = finished(rt, contents);
    let running = contents.maps().get(RUNNING as usize).expect(rt, "a map");
    same(
        rt,
        &(finished.len(), running.is_empty()),
        &(jobs as usize, true),
    );
    for queue in contents.queues() {
        same(rt, &queue.is_empty(), &true);
    }
    for job in 0..jobs {
        same(rt, &finished.get(&(job as u64)).is_some(), &true);
    }
}

// Each worker has a reply to each move.
fn have_replies(rt: &impl Abort, done: &Many<Option<u64>, StorePass>, jobs: u32, workers: u32)
    requires { jobs ≤ MAX_JOBS }
{
    for worker in 1..=workers {
        let last = done.reply(worker, 2 * jobs + 2).is_some();
        let next = done.reply(worker, 2 * jobs + 3).is_none();
        same(rt, &(last, next), &(true, true));
    }
}

// The shift after another finds nothing to do.
fn finds_nothing(rt: &impl Abort, again: &Many<Option<u64>, StorePass>, before: &Contents) {
    let first = again.reply(1, 1).copied();
    let (found, left) = (finished(rt, &again.contents), finished(rt, before));
    same(rt, &(first, found), &(Some(None), left));
}

// So many workers finish so many jobs.
fn finish_all<R: Abort + AllocGlobal + Threads + Sync>(rt: &R, jobs: u32, workers: u32)
    requires jobs { jobs ≤ MAX_JOBS }
    requires workers { (1 ≤ workers) × (workers ≤ MAX_WORKERS) }
{
    let start = all_waiting(rt.alloc(), jobs).expect(rt, "memory");
    let done = after_shift(rt, &start, jobs, workers);
    are_finished(rt, &done.contents, jobs);
    have_replies(rt, &done, jobs, workers);
    let again = after_shift(rt, &done.contents, jobs, workers);
    finds_nothing(rt, &again, &done.contents);
}

// Whatever the threads do, all jobs are finished at last, and each worker has a reply to each move.
// The next shift finds nothing to do.
#[test]
fn all_jobs_are_finished(rt: HostRuntime) {
    finish_all(&rt, 0, 1);
    finish_all(&rt, 1, 1);
    finish_all(&rt, 1, 3);
    finish_all(&rt, 12, 3);
}
