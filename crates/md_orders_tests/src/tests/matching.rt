//! Days of matching commands over the store for one thread, from the book without orders on.

ghost use Rattle.md_history.specs.Plain.{IsPassOf};
ghost use Rattle.md_match.specs.Stands.{IsMatchSized};

use crate::tests::in_range::is_lawful_match;
use crate::tests::shown::{is_text, same};
use md_book::{LEVELS, Side, order_name};
use md_history::{Attempt, Contents, Engine, PlainPass, PlainStore};
use md_match::{At, MATCH_MAPS, MatchCommand, MatchReply, PRICE_BITS};
use std::alloc::AllocGlobal;
use std::process::Abort;

// The order of caller 1 at a line.
fn order(line: u32, account: u32, side: Side, price: u32, quantity: u32) -> MatchCommand {
    MatchCommand::Match {
        name: order_name(1, line),
        account,
        side,
        price,
        quantity,
    }
}

fn sell(line: u32, price: u32, quantity: u32) -> MatchCommand {
    order(line, 7, Side::Sell, price, quantity)
}

fn buy(line: u32, price: u32, quantity: u32) -> MatchCommand {
    order(line, 8, Side::Buy, price, quantity)
}

fn cancel(line: u32) -> MatchCommand {
    MatchCommand::Cancel {
        name: order_name(1, line),
    }
}

// Adds the parts of a reply, each as LINE=TAKEN@PRICE.
fn show_parts(rt: &impl Abort, text: &mut String, parts: &[At]) {
    for part in parts {
        let line = part.name % 0x1_0000_0000;
        write!(text, " {line}={}@{}", part.taken, part.price).expect(rt, "memory");
    }
}

// Adds a reply to a text, on a line of its own.
fn show(rt: &impl Abort, text: &mut String, reply: &MatchReply) {
    match reply {
        MatchReply::Matched {
            taken,
            placed,
            dropped,
            count,
            parts,
        } => {
            write!(text, "\nmatched {taken}").expect(rt, "memory");
            let count = (*count as usize).min(parts.len());
            show_parts(rt, text, &parts[..count]);
            write!(text, " placed {placed} dropped {dropped}").expect(rt, "memory");
        }
        MatchReply::Cancelled(left) => write!(text, "\ncancelled {left}").expect(rt, "memory"),
        MatchReply::Gone => text.push_str("\ngone").expect(rt, "memory"),
        MatchReply::Depth(depth) => write!(text, "\ndepth {depth}").expect(rt, "memory"),
    }
}

// Attempts a command, and answers its reply.
fn attempt(
    rt: &impl Abort,
    store: &PlainStore,
    pass: &mut PlainPass,
    command: MatchCommand,
) -> MatchReply
    requires sized { IsMatchSized store.now }
    requires of { IsPassOf store.now pass.old }
    ensures { IsPassOf store.now pass.new }
{
    if !is_lawful_match(command) {
        panic!(rt; "a command is out of range")
    }
    match store.attempt(pass, 1, &command) {
        Attempt::Committed(reply) => reply,
        Attempt::Stopped(_) => panic!(rt; "stopped"),
    }
}

// Attempts commands, one after another, and adds their replies to a text.
fn attempt_all(
    rt: &impl Abort,
    store: &PlainStore,
    pass: &mut PlainPass,
    day: &[MatchCommand],
    replies: &mut String,
)
    requires sized { IsMatchSized store.now }
    requires of { IsPassOf store.now pass.old }
    ensures { IsPassOf store.now pass.new }
{
    for command in day {
        let reply = attempt(rt, store, pass, *command);
        show(rt, replies, &reply);
    }
}

// Plays a day on an empty book, whose replies are to be these. It answers what the store contains
// then.
fn play<R: Abort + AllocGlobal>(rt: &R, day: &[MatchCommand], want: &str) -> Contents
    ensures { IsMatchSized result }
{
    let contents = Contents::empty(rt.alloc(), MATCH_MAPS, LEVELS).expect(rt, "memory");
    let (store, mut pass) = PlainStore::open(contents);
    let mut replies = String::new(rt.alloc());
    attempt_all(rt, &store, &mut pass, day, &mut replies);
    is_text(rt, replies.as_str(), want);
    let (contents, _) = store.contents(pass).expect(rt, "memory");
    contents
}

// The words of the sell side's lowest, second and highest prices, and its summary.
fn words(contents: &Contents) -> [Option<u64>; 4]
    requires { IsMatchSized contents.now }
{
    [
        contents.get(PRICE_BITS, 16),
        contents.get(PRICE_BITS, 17),
        contents.get(PRICE_BITS, 31),
        contents.get(PRICE_BITS, 33),
    ]
}

const CHEAPEST_FIRST: &str = "
matched 0 placed 5 dropped 0
matched 0 placed 3 dropped 0
matched 6 2=3@100 1=3@101 placed 0 dropped 0";

#[test]
fn the_cheapest_is_taken_first(rt: HostRuntime) {
    let day = [sell(1, 101, 5), sell(2, 100, 3), buy(3, 101, 6)];
    play(&rt, &day, CHEAPEST_FIRST);
}

const DEAREST_FIRST: &str = "
matched 0 placed 1 dropped 0
matched 0 placed 2 dropped 0
matched 0 placed 1 dropped 0
matched 4 2=2@100 3=1@100 1=1@99 placed 0 dropped 0";

#[test]
fn the_dearest_is_sold_to_first(rt: HostRuntime) {
    let day = [
        buy(1, 99, 1),
        buy(2, 100, 2),
        buy(3, 100, 1),
        sell(4, 99, 4),
    ];
    play(&rt, &day, DEAREST_FIRST);
}

const FOUR_PLACES: &str = "
matched 0 placed 1 dropped 0
matched 0 placed 1 dropped 0
matched 0 placed 1 dropped 0
matched 0 placed 1 dropped 0
matched 0 placed 1 dropped 0
matched 4 1=1@100 2=1@100 3=1@100 4=1@100 placed 0 dropped 2
cancelled 1
gone
matched 0 placed 6 dropped 0";

#[test]
fn four_places_are_looked_at(rt: HostRuntime) {
    let day = [
        sell(1, 100, 1),
        sell(2, 100, 1),
        sell(3, 100, 1),
        sell(4, 100, 1),
        sell(5, 100, 1),
        buy(6, 100, 6),
        cancel(5),
        cancel(5),
        buy(9, 100, 6),
    ];
    play(&rt, &day, FOUR_PLACES);
}

const RESTS: &str = "
matched 0 placed 2 dropped 0
matched 2 1=2@100 placed 3 dropped 0
depth 3
matched 0 placed 1 dropped 0
matched 1 2=1@90 placed 0 dropped 0";

#[test]
fn what_remains_rests(rt: HostRuntime) {
    let left = MatchCommand::Depth {
        side: Side::Sell,
        price: 90,
    };
    let day = [
        buy(1, 100, 2),
        sell(2, 90, 5),
        left,
        buy(4, 89, 1),
        buy(5, 90, 1),
    ];
    play(&rt, &day, RESTS);
}

const BOTH_ENDS: &str = "
matched 0 placed 1 dropped 0
matched 0 placed 1 dropped 0
matched 0 placed 1 dropped 0
matched 0 placed 1 dropped 0";

// The bits of prices at both ends of a word, of the lowest and the highest price.
#[test]
fn each_price_has_a_bit(rt: HostRuntime) {
    let day = [
        sell(1, 1_000, 1),
        sell(2, 65, 1),
        sell(3, 64, 1),
        sell(4, 1, 1),
    ];
    let contents = play(&rt, &day, BOTH_ENDS);
    let want = [Some(1 << 63 | 1), Some(1), Some(1 << 39), Some(1 << 15 | 3)];
    same(&rt, &words(&contents), &want);
}

const ALL_TAKEN: &str = "
matched 0 placed 1 dropped 0
matched 0 placed 1 dropped 0
matched 0 placed 1 dropped 0
matched 0 placed 1 dropped 0
matched 4 4=1@1 3=1@64 2=1@65 1=1@1000 placed 0 dropped 0";

#[test]
fn no_bit_is_left(rt: HostRuntime) {
    let day = [
        sell(1, 1_000, 1),
        sell(2, 65, 1),
        sell(3, 64, 1),
        sell(4, 1, 1),
        buy(5, 1_000, 4),
    ];
    let contents = play(&rt, &day, ALL_TAKEN);
    same(&rt, &words(&contents), &[None; 4]);
}
