//! Made scripts and small ones, over the concurrent store.

ghost use Rattle.std.specs.Prelude.{◌≡◌, ◌≤◌, length, IfOk};

use crate::tests::{repeated, same};
use md_book::BookReply;
use md_many::FreeGate;
use md_orders::{Scripts, make, read_orders};
use md_program_play::play_on_store;
use md_report::summary;
use md_rounds::{Outcome, summaries_add_up};
use std::alloc::{AllocError, Global};
use std::process::Abort;
use std::test::Fail;
use std::thread::Threads;

mod closing;

// The scripts of two callers.
fn scripts_of(alloc: Global, text: &[u8]) -> Result<Scripts, Fail>
    ensures { IfOk result (λ scripts. length scripts ≡ 2) }
{
    match read_orders(alloc, text, 2) {
        Ok(scripts) => Ok(scripts),
        Err(_) => Err(Fail::from(AllocError)),
    }
}

// A caller, a line of it, and its reply.
type Told = (u32, u32, Option<BookReply>);

// Compares replies.
fn expect_replies<R: Abort, P>(rt: &R, played: &Outcome<P>, told: &[Told]) {
    for (caller, line, want) in told {
        same(rt, &played.replies.get(*caller, *line), want);
    }
}

// Compares the replies to six lines of two callers.
fn expect_six<P>(rt: &impl Abort, played: &Outcome<P>) {
    let told = [
        (1, 1, Some(BookReply::Placed)),
        (1, 3, Some(BookReply::Depth(3))),
        (2, 1, Some(BookReply::Placed)),
        (2, 2, Some(BookReply::Cancelled(4))),
        (2, 3, Some(BookReply::Depth(0))),
        (2, 4, None),
    ];
    expect_replies(rt, played, told.as_slice());
}

// Two callers at levels and orders of their own: each reply is the same in any order of the lines.
#[test]
fn two_callers(rt: HostRuntime) -> Result<(), Fail> {
    let alloc = rt.alloc();
    let text = "1,P,7,S,100,5\n1,F,8,S,100,2\n1,D,S,100\n2,P,17,B,200,4\n2,C,2,1\n2,D,B,200\n";
    let scripts = scripts_of(alloc, text.as_bytes())?;
    let played = play_on_store(&rt, alloc, &scripts, 64, 64, &FreeGate)?;
    expect_six(&rt, &played);
    Ok(())
}

// Compares the last reply of a hundred, and the number of fronts.
fn expect_hundred<R: Abort, P>(rt: &R, played: &Outcome<P>) {
    expect_replies(rt, played, &[(2, 100, Some(BookReply::Placed))]);
    same(rt, &played.fronts.len(), &1);
}

// The scripts of two callers, of whom one has a hundred lines.
fn scripts_of_one(alloc: Global) -> Result<Scripts, Fail>
    ensures { IfOk result (λ scripts. length scripts ≡ 2) }
{
    let text = repeated(alloc, b"2,P,7,S,100,5\n", 100, b"")?;
    let scripts = scripts_of(alloc, &text)?;
    Ok(scripts)
}

// Only one of two callers has lines. A place takes three nodes, and both lanes together have enough.
#[test]
fn a_lone_caller_takes_the_nodes_of_all_lanes(rt: HostRuntime) -> Result<(), Fail> {
    let scripts = scripts_of_one(rt.alloc())?;
    let played = play_on_store(&rt, rt.alloc(), &scripts, 192, 100, &FreeGate)?;
    expect_hundred(&rt, &played);
    Ok(())
}

// What made scripts come to over a store whose lanes have so many nodes and attempts.
fn summed<R: Threads + Sync>(
    rt: &R,
    alloc: Global,
    number: u32,
    callers: u32,
    nodes: u32,
    tries: u32,
) -> Result<Vec<u8>, Fail>
    requires callers { (1 ≤ callers) × (callers ≤ 8) }
    requires nodes { (16 ≤ nodes) × (nodes ≤ 4096) }
    requires tries { 1 ≤ tries }
{
    let scripts = make(alloc, number, 4_000, callers)?;
    let played = play_on_store(rt, alloc, &scripts, nodes, tries, &FreeGate)?;
    summaries_add_up();
    Ok(summary(alloc, &scripts, &played.replies, &played.contents)?)
}

// Compares two texts.
fn expect_same(rt: &impl Abort, one: &[u8], other: &[u8]) {
    same(rt, &one, &other);
}

// Made callers don't touch one another's orders, so what their lines come to is the same over few
// nodes and attempts, with many renewals, and over many; and whatever the threads do.
#[test]
fn made_callers(rt: HostRuntime) -> Result<(), Fail> {
    let alloc = rt.alloc();
    let many = summed(&rt, alloc, 7, 4, 4_096, 4_096)?;
    let again = summed(&rt, alloc, 7, 4, 4_096, 4_096)?;
    let few = summed(&rt, alloc, 7, 4, 128, 64)?;
    expect_same(&rt, &many, &again);
    expect_same(&rt, &many, &few);
    same(
        &rt,
        &many.starts_with(b"made 4000 placed ".as_slice()),
        &true,
    );
    Ok(())
}
