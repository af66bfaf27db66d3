//! One caller's scripts in rounds, over the store for one thread.

ghost use Rattle.std.specs.Prelude.{◌≡◌, ◌≤◌, length, IfOk};

use crate::tests::shown::same;
use md_book::{BookReply, DEPTHS, LEVELS, MAPS, MAX_PARTS, Part, order_name};
use md_history::{Contents, PlainPass, PlainStore};
use md_orders::{Scripts, read_orders};
use md_report::summary;
use md_report_replies::Replies;
use md_rounds::{FreeGate, Outcome, run_all, summaries_add_up};
use md_words::limits::{MAX_MAPS, MAX_QUEUES};
use std::alloc::{AllocError, Global};
use std::process::Abort;
use std::test::Fail;
use std::thread::Threads;

// The script of one caller.
fn script_of(alloc: Global, text: &str) -> Result<Scripts, Fail>
    ensures { IfOk result (λ scripts. length scripts ≡ 1) }
{
    match read_orders(alloc, text.as_bytes(), 1) {
        Ok(scripts) => Ok(scripts),
        Err(_) => Err(Fail::from(AllocError)),
    }
}

// Plays such a script in rounds, on an empty book.
fn play_script(
    rt: &(impl Threads + Sync),
    alloc: Global,
    scripts: &Scripts,
) -> Result<Outcome<PlainPass>, AllocError>
    requires { length scripts.now ≡ 1 }
    ensures { IfOk result (λ played. MAPS ≤ length played.contents.maps) }
{
    let (store, pass) = PlainStore::open(Contents::empty(alloc, MAPS, LEVELS)?);
    run_all(rt, alloc, store, pass, scripts, 1_000_000, &FreeGate)
}

#[test]
fn one_caller(rt: HostRuntime) -> Result<(), Fail> {
    let alloc = rt.alloc();
    let scripts = script_of(alloc, "1,P,7,S,100,5\n1,F,8,S,100,3\n1,D,S,100\n")?;
    let played = play_script(&rt, alloc, &scripts)?;
    let replies = [played.replies.get(1, 1), played.replies.get(1, 3)];
    let depth = played.contents.get(DEPTHS, 1099);
    let want = [Some(BookReply::Placed), Some(BookReply::Depth(2))];
    same(&rt, &(replies, depth), &(want, Some(2)));
    Ok(())
}

// An order, a fill of a part, a kill that finds too little, one that finds enough, a cancel of what
// is left, and two looks; so many times, one after another.
fn cycles(alloc: Global, count: u32) -> Result<Scripts, Fail>
    ensures { IfOk result (λ scripts. length scripts ≡ 1) }
{
    let mut text = String::new(alloc);
    for cycle in 0..count {
        let first = cycle.saturating_mul(7).saturating_add(1);
        text.push_str("1,P,7,S,100,5\n1,F,8,S,100,3\n1,K,8,S,100,3\n1,K,8,S,100,1\n")?;
        writeln!(text, "1,C,1,{first}\n1,D,S,100\n1,A,8")?;
    }
    script_of(alloc, text.as_str())
}

// The reply to a fill or a kill that took all that it asked for, from the order of one line.
fn fill_of(line: u32, taken: u32) -> BookReply {
    let mut parts = [Part { name: 0, taken: 0 }; MAX_PARTS];
    parts[0] = Part {
        name: order_name(1, line),
        taken,
    };
    BookReply::Filled {
        taken,
        rest: 0,
        count: 1,
        parts,
    }
}

// The replies of a cycle, which begins at a line.
fn replies_of(first: u32, cycle: u32) -> [BookReply; 7] {
    [
        BookReply::Placed,
        fill_of(first, 3),
        BookReply::Killed,
        fill_of(first, 1),
        BookReply::Cancelled(1),
        BookReply::Depth(0),
        BookReply::Account {
            bought: u64::from(cycle).saturating_add(1).saturating_mul(4),
            sold: 0,
        },
    ]
}

// Each reply of a cycle stands at its own line.
fn is_cycle(rt: &impl Abort, replies: &Replies, cycle: u32) {
    let first = cycle.saturating_mul(7).saturating_add(1);
    for (place, want) in replies_of(first, cycle).iter().enumerate() {
        let line = first.saturating_add(place as u32);
        same(rt, &(line, replies.get(1, line)), &(line, Some(*want)));
    }
}

// Each reply of so many cycles does.
fn are_those_of(rt: &impl Abort, replies: &Replies, count: u32) {
    for cycle in 0..count {
        is_cycle(rt, replies, cycle);
    }
}

// More lines than many batches have, and than 16 bits count: each reply stands at its own line, and
// the summary adds up.
#[test]
fn batches_of_lines(rt: HostRuntime) -> Result<(), Fail> {
    let alloc = rt.alloc();
    let scripts = cycles(alloc, 10_000)?;
    let played = play_script(&rt, alloc, &scripts)?;
    are_those_of(&rt, &played.replies, 10_000);
    summaries_add_up();
    let line = summary(alloc, &scripts, &played.replies, &played.contents)?;
    let want = b"made 70000 placed 50000 cancelled 10000 filled 40000 open 0\n".as_slice();
    let ends = (played.fronts.len(), played.replies.get(1, 70_001));
    same(&rt, &(ends, line.as_slice()), &((1, None), want));
    Ok(())
}

// As many maps and queues as a field can have.
#[test]
fn the_largest_contents(rt: HostRuntime) -> Result<(), Fail> {
    let contents = Contents::empty(rt.alloc(), MAX_MAPS, MAX_QUEUES)?;
    same(
        &rt,
        &(contents.maps().len(), contents.queues().len()),
        &(16, 4_096),
    );
    Ok(())
}
