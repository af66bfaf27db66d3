//! Replies that no order explains: what the search must refuse.

use super::*;
use crate::tests::same;
use md_book::{BookReply, MAX_PARTS, Part, order_name};
use md_many::FreeGate;
use std::alloc::AllocGlobal;
use std::process::Abort;

// The reply to a fill that took one from caller 1's first order.
fn took_the_last() -> BookReply {
    let mut parts = [Part { name: 0, taken: 0 }; MAX_PARTS];
    parts[0] = Part {
        name: order_name(1, 1),
        taken: 1,
    };
    BookReply::Filled {
        taken: 1,
        rest: 0,
        count: 1,
        parts,
    }
}

// Changes the reply of a line. The caller and the line are counted from 0.
fn change(callers: &mut [Vec<Told>], (caller, line): (usize, usize), reply: BookReply) {
    if let Some(lines) = callers.get_mut(caller) {
        if let Some(told) = lines.get_mut(line) {
            told.reply = reply;
        }
    }
}

// Plays a file of two callers in an order.
fn played(alloc: Global, text: &str, order: &[u32]) -> Result<Replayed, Fail> {
    let scripts = scripts_of(alloc, text, 2)?;
    Ok(play_in_order(alloc, &scripts, order, &FreeGate)?)
}

// How many orders explain a play.
fn count_of(alloc: Global, played: &Replayed) -> Result<u64, AllocError> {
    Ok(orders_that_explain(alloc, &played.callers, &played.contents)?.count)
}

// Plays a file of two callers in an order: how many orders explain what comes of that, and how many
// explain it when the reply of a line is changed.
fn counts(
    alloc: Global,
    text: &str,
    order: [u32; 4],
    place: (usize, usize),
    reply: BookReply,
) -> Result<(u64, u64), Fail> {
    let mut replayed = played(alloc, text, order.as_slice())?;
    let honest = count_of(alloc, &replayed)?;
    change(&mut replayed.callers, place, reply);
    let changed = count_of(alloc, &replayed)?;
    Ok((honest, changed))
}

#[test]
fn no_order_explains_these(rt: HostRuntime) -> Result<(), Fail> {
    let alloc = rt.alloc();
    // Both callers got the same last unit.
    let text = "1,P,7,S,100,1\n1,F,8,S,100,1\n2,F,9,S,100,1\n";
    let unit = counts(alloc, text, [1, 1, 2, 0], (1, 0), took_the_last())?;
    // Each caller placed an order before it looked, and neither saw the other's.
    let text = "1,P,7,S,100,1\n1,D,S,101\n2,P,7,S,101,1\n2,D,S,100\n";
    let unseen = counts(alloc, text, [1, 1, 2, 2], (1, 1), BookReply::Depth(0))?;
    // A caller saw its own later order.
    let text = "1,D,S,100\n1,P,7,S,100,1\n2,D,S,100\n";
    let later = counts(alloc, text, [1, 1, 2, 0], (0, 0), BookReply::Depth(1))?;
    same(&rt, &[unit, unseen, later], &[(2, 0), (1, 0), (1, 0)]);
    Ok(())
}

// The orders that explain what callers were told, beside the book that their lines leave in some
// order.
fn explained(
    alloc: Global,
    scripts: &Scripts,
    told: &[Vec<Told>],
    order: &[u32],
) -> Result<Orders, AllocError> {
    let played = play_in_order(alloc, scripts, order, &FreeGate)?;
    orders_that_explain(alloc, told, &played.contents)
}

// Compares the number of orders that explain what callers were told, beside the book that their
// lines leave in some order, and the one that is found.
fn expect_explained<R: Abort + AllocGlobal>(
    rt: &R,
    scripts: &Scripts,
    told: &[Vec<Told>],
    order: &[u32],
    count: u64,
    one: &[u32],
) {
    let orders = explained(rt.alloc(), scripts, told, order).expect(rt, "memory");
    same(rt, &(orders.count, orders.one.as_slice()), &(count, one));
}

// Orders of two lines, of which the last lacks one; how many explain the replies, and one.
const BOOKS: &[(&[u32], u64, &[u32])] = &[
    (&[1, 2], 1, &[1, 2]),
    (&[2, 1], 1, &[2, 1]),
    (&[1], 0, &[]),
];

// Replies that an order explains, beside a book that lacks the last line.
#[test]
fn no_order_explains_another_book(rt: HostRuntime) -> Result<(), Fail> {
    let alloc = rt.alloc();
    let scripts = scripts_of(alloc, "1,P,7,S,100,1\n2,P,7,S,100,1\n", 2)?;
    let told = play_in_order(alloc, &scripts, [1, 2].as_slice(), &FreeGate)?.callers;
    for (order, count, one) in BOOKS {
        expect_explained(&rt, &scripts, &told, order, *count, one);
    }
    Ok(())
}
