//! Packed replies in their places.

ghost use Rattle.std.specs.Prelude.{◌≡◌, ◌≤◌, ◌<◌, ◌+◌, ◌^◌, length, IfOk};
ghost use Rattle.md_orders.specs.Scripts.{list_of};
ghost use Rattle.md_report_replies.specs.Replies.{SuitTheirLines};

use crate::tests::reports::{reply_with, set_lines};
use crate::tests::shown::{read, same};
use md_orders::Scripts;
use md_report_replies::{PackedReplies, Replies};
use std::alloc::{AllocGlobal, Global};
use std::process::Abort;
use std::test::Fail;

// A reply that suits each line of a caller after its first `done`.
fn packed_lines(
    alloc: Global,
    scripts: &Scripts,
    caller: u32,
    done: u32,
    count: u8,
) -> Result<PackedReplies, Fail>
    requires { done ≤ length (list_of scripts.now caller) }
    ensures suit { IfOk result (SuitTheirLines scripts.now caller done) }
    ensures few { IfOk result (λ packed. done + length packed < 2 ^ 32) }
{
    let mut packed = PackedReplies::new(alloc);
    'lines: for before in done..scripts.len(caller) {
        let Some(command) = scripts.command(caller, before + 1) else {
            return Err(Fail::new("no such line"));
        };
        packed.append(&[reply_with(command, count)])?;
    }
    Ok(packed)
}

// Replies of the second caller's lines after its first `done`, set one by one.
fn set_plain(alloc: Global, scripts: &Scripts, done: u32, count: u8) -> Result<Replies, Fail> {
    let mut replies = Replies::empty(alloc, scripts)?;
    set_lines(&mut replies, scripts, 2, done.saturating_add(1), count);
    Ok(replies)
}

// The same replies, packed and set at once.
fn set_packed(alloc: Global, scripts: &Scripts, done: u32, count: u8) -> Result<Replies, Fail> {
    if scripts.len(2) < done {
        return Err(Fail::new("too few lines"));
    }
    let packed = packed_lines(alloc, scripts, 2, done, count)?;
    let mut replies = Replies::empty(alloc, scripts)?;
    replies.set_packed(2, done, &packed);
    Ok(replies)
}

// The second caller has the same replies at its lines before the tenth.
fn has_same_replies(rt: &impl Abort, replies: &Replies, plain: &Replies) {
    for line in 0..10 {
        let want = (line, plain.get(2, line));
        same(rt, &(line, replies.get(2, line)), &want);
    }
}

// The second caller's replies after its first `done` are the same, set either way.
fn are_those_set<R: Abort + AllocGlobal>(
    rt: &R,
    scripts: &Scripts,
    done: u32,
    count: u8,
) -> Result<(), Fail> {
    let packed = set_packed(rt.alloc(), scripts, done, count)?;
    let plain = set_plain(rt.alloc(), scripts, done, count)?;
    has_same_replies(rt, &packed, &plain);
    Ok(())
}

#[test]
fn packed_replies_are_those_that_were_set(rt: HostRuntime) -> Result<(), Fail> {
    let orders = b"medley,2\n2,P,7,S,100,5\n2,C,1,1\n2,F,8,S,100,12\n2,F,8,S,100,1000000\n\
        2,F,8,S,100,3\n2,K,8,S,100,3\n2,D,S,3\n2,A,7\n"
        .as_slice();
    let scripts = read(&rt, orders, 2);
    are_those_set(&rt, &scripts, 0, 12)?;
    are_those_set(&rt, &scripts, 0, 0)?;
    are_those_set(&rt, &scripts, 3, 2)?;
    are_those_set(&rt, &scripts, 8, 1)
}
