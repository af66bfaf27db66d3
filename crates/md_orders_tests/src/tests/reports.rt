//! Replies, and a report from outside.

ghost use Rattle.std.specs.Prelude.{◌≡◌, ◌≤◌, length};
ghost use Rattle.md_book.specs.Suits.{IsTaken, Suits};
ghost use Rattle.md_book.specs.Commands.{IsCommand};

use crate::tests::shown::{are_bytes, extend, is_text, read};
use md_book::{BOUGHT, BookReply, Command, DEPTHS, MAPS, MAX_PARTS, Part, SOLD, order_name};
use md_history::Contents;
use md_orders::Scripts;
use md_report::{report, summary};
use md_report_replies::Replies;
use std::alloc::AllocGlobal;
use std::process::Abort;

// Puts a value into a map of a book.
fn put(rt: &impl Abort, contents: &mut Contents, map: u32, key: u64, value: u64)
    requires { MAPS ≤ length contents.old.maps }
    ensures { MAPS ≤ length contents.new.maps }
{
    if map >= MAPS {
        panic!(rt; "no such map")
    }
    contents.put(map, key, value).expect(rt, "memory");
}

// A book's maps with values in them: a map, a key and a value each.
pub(crate) fn contents_of<R: Abort + AllocGlobal>(rt: &R, values: &[(u32, u64, u64)]) -> Contents
    ensures { MAPS ≤ length result.maps }
{
    let mut contents = Contents::empty(rt.alloc(), MAPS, 0).expect(rt, "memory");
    'values: for (map, key, value) in values {
        put(rt, &mut contents, *map, *key, *value);
    }
    contents
}

// A reply that suits a command: of a fill the whole quantity, from the largest name.
fn some_reply(command: Command) -> BookReply
    requires { IsCommand command }
    ensures { Suits (command, result) }
{
    match command {
        Command::Place { .. } => BookReply::Placed,
        Command::Cancel { .. } => BookReply::Cancelled(5),
        Command::Fill { quantity, .. } => {
            let mut parts = [Part { name: 0, taken: 0 }; MAX_PARTS];
            parts[0] = Part {
                name: order_name(64, 1_000_000),
                taken: quantity,
            };
            BookReply::Filled {
                taken: quantity,
                rest: 0,
                count: 1,
                parts,
            }
        }
        Command::Kill { .. } => BookReply::Killed,
        Command::Depth { .. } => BookReply::Depth(u64::MAX),
        Command::Account { .. } => BookReply::Account { bought: 5, sold: 6 },
    }
}

// The answer to a fill: so many parts of one each, from the first orders of the first caller.
fn fill_with(quantity: u32, count: u8) -> BookReply
    requires few { count ≤ MAX_PARTS }
    requires enough { count ≤ quantity }
    ensures { IsTaken quantity count result }
{
    let mut parts = [Part { name: 0, taken: 0 }; MAX_PARTS];
    for place in 0..count {
        parts[usize::from(place)] = Part {
            name: order_name(1, u32::from(place) + 1),
            taken: 1,
        };
    }
    BookReply::Filled {
        taken: u32::from(count),
        rest: quantity - u32::from(count),
        count,
        parts,
    }
}

// The fill of a million with the longest text: twelve parts from the last order that there can be,
// where the parts, their sum and what remains have as many digits as they can.
fn longest_fill() -> BookReply
    ensures { IsTaken 1000000 12 result }
{
    let name = order_name(64, 1_000_000);
    let large = Part {
        name,
        taken: 100_000,
    };
    let small = Part {
        name,
        taken: 25_000,
    };
    BookReply::Filled {
        taken: 900_000,
        rest: 100_000,
        count: 12,
        parts: [
            large, large, large, large, large, large, large, large, small, small, small, small,
        ],
    }
}

// A reply that suits a command: of a fill so many parts, where it has the places and the quantity,
// and the longest where it asks for a million of twelve places.
pub(crate) fn reply_with(command: Command, count: u8) -> BookReply
    requires { IsCommand command }
    ensures { Suits (command, result) }
{
    match command {
        Command::Fill {
            quantity: 1_000_000,
            places: 12,
            ..
        } => longest_fill(),
        Command::Fill {
            quantity,
            places,
            ..
        } if count <= places && u32::from(count) <= quantity => fill_with(quantity, count),
        _ => some_reply(command),
    }
}

// Sets such a reply at each line of a caller from a first one on.
pub(crate) fn set_lines(
    replies: &mut Replies,
    scripts: &Scripts,
    caller: u32,
    first: u32,
    count: u8,
)
    requires first { 1 ≤ first }
    requires same { replies.old.scripts ≡ scripts.now }
    ensures { replies.new.scripts ≡ scripts.now }
{
    'lines: for line in first..scripts.len(caller) + 1 {
        let Some(command) = scripts.command(caller, line) else {
            unreachable!()
        };
        replies.set(caller, line, reply_with(command, count));
    }
}

// Sets such a reply at each line of each caller.
pub(crate) fn set_all(replies: &mut Replies, scripts: &Scripts, count: u8)
    requires { replies.old.scripts ≡ scripts.now }
    ensures { replies.new.scripts ≡ scripts.now }
{
    'callers: for before in 0..scripts.callers() {
        set_lines(replies, scripts, before + 1, 1, count);
    }
}

// Such a reply at each line of each caller.
fn replies_of<R: Abort + AllocGlobal>(rt: &R, scripts: &Scripts, count: u8) -> Replies {
    let mut replies = Replies::empty(rt.alloc(), scripts).expect(rt, "memory");
    set_all(&mut replies, scripts, count);
    replies
}

// The report of scripts with replies and these values.
fn report_of<R: Abort + AllocGlobal>(
    rt: &R,
    scripts: &Scripts,
    replies: &Replies,
    values: &[(u32, u64, u64)],
) -> Vec<u8> {
    let contents = contents_of(rt, values);
    report(rt.alloc(), scripts, replies, &contents).expect(rt, "memory")
}

// The summary of them.
fn summary_of<R: Abort + AllocGlobal>(
    rt: &R,
    scripts: &Scripts,
    replies: &Replies,
    values: &[(u32, u64, u64)],
) -> Vec<u8> {
    let contents = contents_of(rt, values);
    summary(rt.alloc(), scripts, replies, &contents).expect(rt, "memory")
}

// The report of scripts with such replies and these values.
pub(crate) fn reported<R: Abort + AllocGlobal>(
    rt: &R,
    scripts: &Scripts,
    count: u8,
    values: &[(u32, u64, u64)],
) -> Vec<u8> {
    report_of(rt, scripts, &replies_of(rt, scripts, count), values)
}

// The replies of scripts of two callers, with one at each line of the second caller but its first.
fn told_from_the_second_line<R: Abort + AllocGlobal>(rt: &R, scripts: &Scripts) -> Replies {
    let mut replies = Replies::empty(rt.alloc(), scripts).expect(rt, "memory");
    set_lines(&mut replies, scripts, 2, 2, u8::MAX);
    replies
}

// Adds the reply at a line.
fn add_reply(rt: &impl Abort, text: &mut String, replies: &Replies, caller: u32, line: u32) {
    write!(text, "{:?};", replies.get(caller, line)).expect(rt, "memory");
}

// Adds two lines with a reply, and lines that have none or don't exist.
fn add_seven(rt: &impl Abort, text: &mut String, replies: &Replies) {
    add_reply(rt, text, replies, 2, 2);
    add_reply(rt, text, replies, 2, 6);
    add_reply(rt, text, replies, 2, 1);
    add_reply(rt, text, replies, 1, 1);
    add_reply(rt, text, replies, 2, 8);
    add_reply(rt, text, replies, 0, 1);
    add_reply(rt, text, replies, 3, 1);
}

// Those lines are these.
fn has_seven<R: Abort + AllocGlobal>(rt: &R, replies: &Replies) {
    let mut text = String::new(rt.alloc());
    add_seven(rt, &mut text, replies);
    let seven = "Some(Depth(18446744073709551615));Some(Killed);None;None;None;None;None;";
    is_text(rt, text.as_str(), seven);
}

// The report, the sign `|`, and the summary.
fn report_and_summary<R: Abort + AllocGlobal>(
    rt: &R,
    scripts: &Scripts,
    replies: &Replies,
    values: &[(u32, u64, u64)],
) -> Vec<u8> {
    let mut text = report_of(rt, scripts, replies, values);
    extend(rt, &mut text, b"|");
    extend(rt, &mut text, &summary_of(rt, scripts, replies, values));
    text
}

// The report and the summary are these.
fn has_report_and_summary<R: Abort + AllocGlobal>(rt: &R, scripts: &Scripts, replies: &Replies) {
    let values = [
        (DEPTHS, 1_999, 7),
        (DEPTHS, 1_000, 6),
        (DEPTHS, 999, 5),
        (DEPTHS, 5, 0),
        (DEPTHS, 0, 4),
        (BOUGHT, 9_999, 3),
        (BOUGHT, 5, 0),
        (SOLD, 1, 2),
    ]
    .as_slice();
    let want = b"2:2 depth 18446744073709551615\n2:3 placed\n2:4 cancelled 5\n\
        2:5 filled 1000000 rest 0 from 64:1000000=1000000\n2:6 killed\n2:7 bought 5 sold 6\n\
        B 1 4\nB 1000 5\nS 1 6\nS 1000 7\n\
        account 1 bought 0 sold 2\naccount 9999 bought 3 sold 0\ndone 8\n|\
        made 8 placed 10 cancelled 5 filled 1000000 open 22\n";
    are_bytes(rt, &report_and_summary(rt, scripts, replies, values), want);
}

#[test]
fn a_report_has_its_text(rt: HostRuntime) {
    let orders = b"2,D,S,3\n1,P,7,S,100,5\n2,D,S,4\n2,P,7,S,100,5\n2,C,1,1\n\
        2,F,8,S,100,1000000\n2,K,8,S,100,3\n2,A,7\n";
    let scripts = read(&rt, orders, 2);
    let replies = told_from_the_second_line(&rt, &scripts);
    has_seven(&rt, &replies);
    has_report_and_summary(&rt, &scripts, &replies);
}

// The report of a file, whose fills have so many parts, is this.
fn has_report<R: Abort + AllocGlobal>(
    rt: &R,
    orders: &str,
    count: u8,
    values: &[(u32, u64, u64)],
    want: &str,
) {
    let scripts = read(rt, orders.as_bytes(), 64);
    are_bytes(rt, &reported(rt, &scripts, count, values), want.as_bytes());
}

#[test]
fn each_line_has_its_text(rt: HostRuntime) {
    has_report(&rt, "", 0, &[], "done 0\n");
    let orders = "1,P,7,B,50,5\n1,C,1,1\n1,F,8,B,50,3\n1,A,8\n";
    let want = "1:1 placed\n1:2 cancelled 5\n1:3 filled 0 rest 3\n1:4 bought 5 sold 6\ndone 4\n";
    has_report(&rt, orders, 0, &[], want);
    let values = [(SOLD, 7, 2), (BOUGHT, 8, 2)].as_slice();
    let want = "1:1 filled 2 rest 0 from 1:1=1 1:2=1\n\
        account 7 bought 0 sold 2\naccount 8 bought 2 sold 0\ndone 1\n";
    has_report(&rt, "1,F,8,S,100,2\n", 2, values, want);
    let values = [(DEPTHS, 1_099, 1), (SOLD, 7, 4), (BOUGHT, 8, 4)].as_slice();
    let want = "1:1 filled 4 rest 1 from 1:1=1 1:2=1 1:3=1 1:4=1\nS 100 1\n\
        account 7 bought 0 sold 4\naccount 8 bought 4 sold 0\ndone 1\n";
    has_report(&rt, "1,F,8,S,100,5\n", 4, values, want);
    let orders = "medley,2\n64,F,8,S,100,12\n1,K,8,S,100,1\n";
    let values = [(SOLD, 7, 12), (BOUGHT, 8, 12)].as_slice();
    let want = "1:1 killed\n64:1 filled 12 rest 0 from 1:1=1 1:2=1 1:3=1 1:4=1 1:5=1 1:6=1 \
        1:7=1 1:8=1 1:9=1 1:10=1 1:11=1 1:12=1\n\
        account 7 bought 0 sold 12\naccount 8 bought 12 sold 0\ndone 2\n";
    has_report(&rt, orders, 12, values, want);
}
