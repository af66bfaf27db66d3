//! Callers that wait for each other between their lines.

use super::*;
use crate::tests::same;
use md_many::FreeGate;
use std::alloc::AllocGlobal;
use std::process::Abort;

// Plays the lines one after another in an order. Whether that leaves the same replies and maps as
// another play, and how many callers met all others.
fn in_turn(
    alloc: Global,
    scripts: &Scripts,
    order: &[u32],
    want: &Replayed,
) -> Result<(bool, u32), AllocError> {
    let gate = Crossing::of(alloc, scripts.callers(), 1_000)?;
    let played = play_in_order(alloc, scripts, order, &gate)?;
    let maps = played.contents.maps() == want.contents.maps();
    Ok((maps && played.callers == want.callers, gate.met()))
}

// Plays the lines one after another in an order, and compares: that leaves the same as another play,
// and one caller met all others.
fn expect_one_met<R: Abort + AllocGlobal>(
    rt: &R,
    scripts: &Scripts,
    order: &[u32],
    want: &Replayed,
) {
    let seen = in_turn(rt.alloc(), scripts, order, want).expect(rt, "memory");
    same(rt, &(order, seen), &(order, (true, 1)));
}

// Files, how many callers each has, and orders of its lines: one caller after another, and line by
// line in turn.
const ORDERS: &[(&str, u32, &[&[u32]])] = &[
    (
        "1,P,7,S,100,5\n1,F,8,S,100,2\n2,P,17,B,200,4\n2,C,2,1\n",
        2,
        &[&[1, 1, 2, 2], &[2, 2, 1, 1], &[1, 2, 1, 2], &[1, 2, 2, 1]],
    ),
    (
        "1,P,7,S,1,5\n1,D,S,1\n2,P,7,S,2,5\n2,D,S,2\n3,P,7,S,3,5\n3,D,S,3\n",
        3,
        &[
            &[1, 1, 2, 2, 3, 3],
            &[3, 3, 2, 2, 1, 1],
            &[1, 2, 3, 1, 2, 3],
            &[3, 2, 1, 1, 2, 3],
        ],
    ),
];

// Callers who play one after another, or line by line in turn, leave the same replies and book. But
// only the one who comes to its second line last meets all others.
#[test]
fn callers_in_turn_miss_each_other(rt: HostRuntime) -> Result<(), Fail> {
    let alloc = rt.alloc();
    for (text, callers, orders) in ORDERS {
        let scripts = scripts_of(alloc, text, *callers)?;
        let want = play_in_order(alloc, &scripts, orders[0], &FreeGate)?;
        for order in *orders {
            expect_one_met(&rt, &scripts, order, &want);
        }
    }
    Ok(())
}
