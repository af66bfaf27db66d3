//! A feeder that runs while its callers take lines.

ghost use Rattle.std.specs.Prelude.{◌≤◌, ◌<◌};
ghost use Rattle.md_feed_lines.specs.Planned.{CanBeMade};

use crate::fed_lines::wrong_lines;
use md_feed_lines::{FeedLines, Plan, feed_beside, open_feed};
use md_orders::{Scripts, make};
use std::alloc::AllocGlobal;
use std::process::Abort;
use std::sync::Wait;
use std::sync::atomic::AtomicBool;
use std::thread;
use std::thread::Threads;

// How often a test is tried until a feeder has run beside its callers. One that begins too late sends
// no line, since the callers make them.
const TRIES: u32 = 1_000;

// Lets a feeder begin.
fn wait_a_while() {
    for passed in 0..1_000 {
        thread::yield_now();
    }
}

// How many lines of callers 2 and 3 are wrong. They take them at the same time.
fn wrong_of_two<R: Threads + Wait + Sync>(
    rt: &R,
    lines: &FeedLines<'_, R>,
    scripts: &Scripts,
) -> u64 {
    let (second, third) = thread::join(
        rt,
        || wrong_lines(lines, scripts, 2),
        || wrong_lines(lines, scripts, 3),
    );
    second.wrapping_add(third)
}

// How many lines of callers 1 to 3 are wrong. They take them at the same time.
fn wrong_of_three<R: Threads + Wait + Sync>(
    rt: &R,
    lines: &FeedLines<'_, R>,
    scripts: &Scripts,
) -> u64 {
    let (first, others) = thread::join(
        rt,
        || wrong_lines(lines, scripts, 1),
        || wrong_of_two(rt, lines, scripts),
    );
    first.wrapping_add(others)
}

// Whether a feeder sent all lines over channels that hold one, while callers took them. There are
// up to three callers.
fn feeds_beside<R: Abort + AllocGlobal + Threads + Wait + Sync>(rt: &R, plan: Plan) -> bool
    requires { CanBeMade plan }
{
    let alloc = rt.alloc();
    let scripts = make(alloc, plan.number, plan.lines, plan.callers).expect(rt, "memory");
    let (lines, feeder) = open_feed(rt, alloc, plan, 1).expect(rt, "memory");
    let (wrong, sent_all) = feed_beside(rt, feeder, || {
        wait_a_while();
        wrong_of_three(rt, &lines, &scripts)
    });
    assert!(rt; wrong == 0, "{wrong} lines are wrong");
    sent_all
}

fn some_feeder_runs_beside<R: Abort + AllocGlobal + Threads + Wait + Sync>(rt: &R, plan: Plan)
    requires { CanBeMade plan }
{
    for tries in 0..TRIES {
        if feeds_beside(rt, plan) {
            return;
        }
    }
    assert!(rt; false, "no feeder sent all lines");
}

// A channel holds fewer lines than each caller has.
fn ends_with_its_callers<R: Abort + AllocGlobal + Threads + Wait + Sync>(
    rt: &R,
    plan: Plan,
    capacity: u32,
)
    requires plan { CanBeMade plan }
    requires capacity { 0 < capacity }
{
    let alloc = rt.alloc();
    let (lines, mut feeder) = open_feed(rt, alloc, plan, capacity).expect(rt, "memory");
    drop(lines);
    let sent_all = feeder.run(rt, &AtomicBool::new(false));
    assert!(rt; !sent_all, "all lines were sent to nobody");
    let (lines, feeder) = open_feed(rt, alloc, plan, capacity).expect(rt, "memory");
    let ((), sent_all) = feed_beside(rt, feeder, move || drop(lines));
    assert!(rt; !sent_all, "more lines were sent than a channel holds");
}

#[test]
fn a_feeder_runs_beside_its_callers(rt: HostRuntime) {
    for callers in [1, 3] {
        let plan = Plan {
            number: 7,
            lines: 60,
            callers,
        };
        some_feeder_runs_beside(&rt, plan);
    }
}

#[test]
fn a_feeder_ends_when_nobody_takes_lines(rt: HostRuntime) {
    for (lines, callers, capacity) in [(9, 1, 1), (20_000, 3, 1), (20_000, 8, 16)] {
        let plan = Plan {
            number: 7,
            lines,
            callers,
        };
        ends_with_its_callers(&rt, plan, capacity);
    }
}
