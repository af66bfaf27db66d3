//! Made files, each played on threads.

ghost use Rattle.std.specs.Prelude.{◌≤◌, length, IfOk};

use super::*;
use crate::tests::same;
use md_history::Contents;
use md_many::FreeGate;
use md_rounds::Outcome;
use std::alloc::AllocGlobal;
use std::thread::Threads;

// How many files are played.
const FILES: u64 = 4_000;

// How long a caller waits at most until the others have come.
const TURNS: u32 = 100_000;

// Plays the lines again on one thread in an order: whether that gives these replies and contents.
fn is_replayed(
    alloc: Global,
    scripts: &Scripts,
    order: &[u32],
    told: &[Vec<Told>],
    left: &Contents,
) -> Result<bool, AllocError> {
    let again = play_in_order(alloc, scripts, order, &FreeGate)?;
    let maps = again.contents.maps() == left.maps();
    let queues = again.contents.queues() == left.queues();
    Ok(maps && queues && again.callers.as_slice() == told)
}

// Looks for the orders that explain what callers were told. The one that it found is played again on
// one thread: whether that gives the same replies and contents.
fn is_found(
    alloc: Global,
    scripts: &Scripts,
    told: &[Vec<Told>],
    left: &Contents,
) -> Result<bool, AllocError> {
    let orders = orders_that_explain(alloc, told, left)?;
    if orders.count == 0 {
        return Ok(false);
    }
    is_replayed(alloc, scripts, &orders.one, told, left)
}

// Whether an order explains what was played.
fn explains<P>(alloc: Global, scripts: &Scripts, played: &Outcome<P>) -> Result<bool, AllocError> {
    let Some(told) = lines_told(alloc, scripts, &played.replies)? else {
        return Ok(false);
    };
    is_found(alloc, scripts, &told, &played.contents)
}

// The scripts of the made file of a number.
fn made_scripts(alloc: Global, number: u64) -> Result<Scripts, Fail>
    ensures { IfOk result (λ scripts. (2 ≤ length scripts) × (length scripts ≤ 4)) }
{
    let callers = callers_of(number);
    let text = made_file(alloc, number)?;
    let scripts = scripts_of(alloc, text.as_str(), callers)?;
    Ok(scripts)
}

// Plays the made file of a number on threads, each fourth with two attempts between renewals.
// Whether an order explains it.
fn is_explained<R: AllocGlobal + Threads + Sync>(rt: &R, number: u64) -> Result<bool, Fail> {
    let alloc = rt.alloc();
    let scripts = made_scripts(alloc, number)?;
    let gate = Meeting::of(callers_of(number), TURNS);
    let tries = if number % 4 == 3 { 2 } else { 64 };
    let played = play_narrow(rt, alloc, &scripts, tries, &gate)?;
    Ok(explains(alloc, &scripts, &played)?)
}

#[test]
fn an_order_explains_each_file(rt: HostRuntime) -> Result<(), Fail> {
    for number in 0..FILES {
        same(&rt, &(number, is_explained(&rt, number)?), &(number, true));
    }
    Ok(())
}
