//! Replays a day of two callers, as medley would.
#![tactic(auto)]

use md_program::exit_over;
use std::env;
use std::process::ExitCode;

// Runs with the real words and streams, and exits as that run says.
fn main(rt: HostRuntime) -> ExitCode {
    exit_over(&rt, rt.alloc(), env::args(&rt), rt.stdin(), rt.stdout())
}
