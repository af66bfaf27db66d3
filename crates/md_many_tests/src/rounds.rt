//! One caller over a store with one lane.

ghost use Rattle.std.specs.Prelude.{◌≡◌, length, IfOk};

use crate::compared::same;
use crate::lines::EachLine;
use crate::looks::Look;
use md_history::{Contents, PlainPass, PlainStore};
use md_many::{FreeGate, LinesByCaller, Many, run_lines, run_many};
use std::alloc::{AllocError, AllocGlobal, Global};
use std::process::Abort;
use std::thread::Threads;

// The rounds of a caller with `count` lines that makes at most `attempts` attempts in a turn.
fn one_caller<R: Abort + AllocGlobal + Threads + Sync>(
    rt: &R,
    count: u32,
    attempts: u32,
) -> Many<u64, PlainPass> {
    let alloc = rt.alloc();
    let (store, pass) = PlainStore::open(Contents::empty(alloc, 0, 1).expect(rt, "memory"));
    let lines = EachLine {
        callers: 1,
        lines: count,
        like: Look { number: 0 },
    };
    run_many(rt, alloc, store, pass, &lines, attempts, &FreeGate).expect(rt, "memory")
}

// Each of the caller's `count` lines has its tag as reply, and there are no others.
fn has_replies(rt: &impl Abort, many: &Many<u64, PlainPass>, count: u32) {
    for before in 0..count {
        let tag = 4_294_967_297 + u64::from(before);
        same(rt, &many.reply(1, before + 1).copied(), &Some(tag));
    }
    let next = many.reply(1, count.saturating_add(1)).copied();
    same(rt, &(next, many.reply(2, 1).copied()), &(None, None));
}

// The rounds of a caller have its replies, and so many fronts.
fn has_fronts<R: Abort + AllocGlobal + Threads + Sync>(
    rt: &R,
    count: u32,
    attempts: u32,
    fronts: usize,
) {
    let many = one_caller(rt, count, attempts);
    has_replies(rt, &many, count);
    let found = (count, attempts, many.fronts.len());
    same(rt, &found, &(count, attempts, fronts));
}

// A round plays one line, and then a turn of at most so many attempts. The store is renewed before
// the next round, if the turn made all of them. There is a front for each renewal, and one for the
// end. A caller without lines leaves the store as it was.
#[test]
fn one_caller_in_rounds(rt: HostRuntime) {
    has_fronts(&rt, 0, 1_000_000, 1);
    has_fronts(&rt, 1, 1_000_000, 1);
    has_fronts(&rt, 2, 1_000_000, 1);
    has_fronts(&rt, 40_000, 1_000_000, 1);
    // A turn without lines, and turns without attempts.
    has_fronts(&rt, 1, 5, 1);
    has_fronts(&rt, 6, 0, 6);
    // A batch makes at most 128 attempts. A turn goes on after a batch that had no attempt left.
    has_fronts(&rt, 129, 128, 1);
    has_fronts(&rt, 130, 128, 2);
    has_fronts(&rt, 129, 129, 1);
    has_fronts(&rt, 1_501, 1_500, 1);
    has_fronts(&rt, 1_502, 1_500, 2);
    has_fronts(&rt, 2_049, 2_048, 1);
    has_fronts(&rt, 2_050, 2_048, 2);
    has_fronts(&rt, 2_501, 1_500, 2);
    has_fronts(&rt, 2_501, 2_048, 2);
    has_fronts(&rt, 2_501, u32::MAX, 1);
}

// One caller with a list of bodies that have these numbers.
fn one_list(alloc: Global, numbers: &[u64]) -> Result<LinesByCaller<Look>, AllocError>
    ensures { IfOk result (λ lines. length lines ≡ 1) }
{
    let mut list = Vec::new(alloc);
    for number in numbers {
        list.push(Look { number: *number })?;
    }
    let mut lists = Vec::new(alloc);
    lists.push(list)?;
    match LinesByCaller::new(lists) {
        Some(lines) => Ok(lines),
        None => Err(AllocError),
    }
}

// The first caller's line has this reply.
fn has_reply(rt: &impl Abort, many: &Many<u64, PlainPass>, line: u32, number: Option<u64>) {
    same(rt, &many.reply(1, line).copied(), &number);
}

// Plays one caller's list of bodies.
fn list_played<R: Abort + AllocGlobal + Threads + Sync>(
    rt: &R,
    lines: &LinesByCaller<Look>,
) -> Many<u64, PlainPass>
    requires { length lines.now ≡ 1 }
{
    let alloc = rt.alloc();
    let (store, pass) = PlainStore::open(Contents::empty(alloc, 0, 1).expect(rt, "memory"));
    run_lines(rt, alloc, store, pass, lines, 3, &FreeGate).expect(rt, "memory")
}

// A caller with a list of bodies: each is played once, in its order.
#[test]
fn one_list_of_bodies(rt: HostRuntime) {
    let lines = one_list(rt.alloc(), &[7, 5, 7, 9]).expect(&rt, "memory");
    same(&rt, &lines.total(), &4);
    let many = list_played(&rt, &lines);
    has_reply(&rt, &many, 1, Some(7));
    has_reply(&rt, &many, 2, Some(5));
    has_reply(&rt, &many, 3, Some(7));
    has_reply(&rt, &many, 4, Some(9));
    has_reply(&rt, &many, 5, None);
}
