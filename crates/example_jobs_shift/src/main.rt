//! A shift of the workers of the crate example_jobs.
#![tactic(auto)]

ghost use Rattle.example_jobs.specs.Jobs.{Holds};

use example_jobs::{FINISHED, PRIORITIES, RUNNING, all_waiting, run_shift};
use md_history::Contents;
use std::process::ExitCode;

// How many jobs there are.
const JOBS: u32 = 100;

// How many workers run them.
const WORKERS: u32 = 4;

// Prints where the jobs stand.
fn print(rt: &HostRuntime, contents: &Contents)
    requires { Holds JOBS contents.now }
{
    let _printed = println!(rt; "{} jobs, {} workers", JOBS, WORKERS);
    for queue in 0..PRIORITIES {
        let waiting = contents.queue(queue).len();
        let _printed = println!(rt; "waiting at priority {}: {}", queue, waiting);
    }
    let _printed = println!(rt; "running: {}", contents.map(RUNNING).len());
    let _printed = println!(rt; "finished: {}", contents.map(FINISHED).len());
}

fn main(rt: HostRuntime) -> ExitCode {
    let alloc = rt.alloc();
    let Ok(start) = all_waiting(alloc, JOBS) else {
        return ExitCode::FAILURE;
    };
    let Ok(done) = run_shift(&rt, alloc, &start, JOBS, WORKERS) else {
        return ExitCode::FAILURE;
    };
    print(&rt, &done.contents);
    ExitCode::SUCCESS
}
