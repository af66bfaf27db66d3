//! All lines, as callers ask for them.

ghost use Rattle.std.specs.Prelude.{◌≤◌, ◌<◌};
ghost use Rattle.md_feed_lines.specs.Planned.{CanBeMade};

use md_feed_lines::{FeedLines, Plan, open_feed};
use md_many_attempts::Lines;
use md_orders::{Scripts, make};
use std::alloc::AllocGlobal;
use std::process::Abort;
use std::sync::Wait;
use std::sync::atomic::AtomicBool;

// How many lines of a caller aren't those of its script. Each is asked for twice.
pub(crate) fn wrong_lines<R: Wait + Sync>(
    lines: &FeedLines<'_, R>,
    scripts: &Scripts,
    caller: u32,
) -> u64 {
    let mut wrong = 0u64;
    for before in 0..scripts.len(caller) {
        let line = before + 1;
        for asked in 0..2 {
            if lines.body(caller, line) != scripts.command(caller, line) {
                wrong = wrong.wrapping_add(1);
            }
        }
    }
    wrong
}

// The same of all callers, one after another.
fn all_wrong<R: Wait + Sync>(lines: &FeedLines<'_, R>, scripts: &Scripts) -> u64 {
    let mut wrong = 0u64;
    for before in 0..scripts.callers() {
        wrong = wrong.wrapping_add(wrong_lines(lines, scripts, before + 1));
    }
    wrong
}

// Takes all lines, after the feeder ran. It sends all lines if a channel holds as many as a caller
// has, and none if it was stopped before.
fn plays_all<R: Abort + AllocGlobal + Wait + Sync>(rt: &R, plan: Plan, capacity: u32, stopped: bool)
    requires plan { CanBeMade plan }
    requires capacity { 0 < capacity }
{
    let alloc = rt.alloc();
    let scripts = make(alloc, plan.number, plan.lines, plan.callers).expect(rt, "memory");
    let (lines, mut feeder) = open_feed(rt, alloc, plan, capacity).expect(rt, "memory");
    let stop = AtomicBool::new(stopped);
    let sent_all = feeder.run(rt, &stop);
    assert!(rt; sent_all != stopped, "sent all: {sent_all}");
    let wrong = all_wrong(&lines, &scripts);
    assert!(rt; wrong == 0, "{wrong} lines are wrong");
}

#[test]
fn each_line_is_as_it_is_made(rt: HostRuntime) {
    for (lines, callers, capacity) in [
        (1, 1, 1),
        (3, 1, 3),
        (9, 8, 2),
        (300, 3, 100),
        (2_000, 4, 1_024),
    ] {
        let plan = Plan {
            number: 7,
            lines,
            callers,
        };
        for stopped in [false, true] {
            plays_all(&rt, plan, capacity, stopped);
        }
    }
}
