//! The end of a report, from a store that was closed for it.

use super::{expect_same, same, scripts_of};
use md_many::FreeGate;
use md_program_play::{close_for_report, open_store, play_opened};
use md_report::after_lines;
use md_rounds::{OpenOutcome, Rounds};
use std::process::Abort;
use std::test::Fail;

// Compares the number of fronts with one, and the end of a report with what it should be.
fn compare(rt: &impl Abort, fronts: usize, end: &[u8], expected: &[u8]) {
    same(rt, &fronts, &1);
    expect_same(rt, end, expected);
}

// One caller fills a part of an order of its own, and another cancels its order.
#[test]
fn the_sums_of_a_closed_store(rt: HostRuntime) -> Result<(), Fail> {
    let alloc = rt.alloc();
    let text = "1,P,7,S,100,5\n1,F,8,S,100,2\n2,P,17,B,200,4\n2,C,2,1\n2,P,9,B,90,6\n";
    let scripts = scripts_of(alloc, text.as_bytes())?;
    let opened = open_store(alloc, scripts.callers(), 5, 64, 64)?;
    let played = play_opened(&rt, alloc, opened, &scripts, &FreeGate)?;
    let OpenOutcome { rounds, .. } = played;
    let Rounds { contents, fronts } = close_for_report(rounds)?;
    let end = after_lines(alloc, &scripts, &contents)?;
    let expected =
        "B 90 6\nS 100 3\naccount 7 bought 0 sold 2\naccount 8 bought 2 sold 0\ndone 5\n";
    compare(&rt, fronts.len(), &end, expected.as_bytes());
    Ok(())
}
