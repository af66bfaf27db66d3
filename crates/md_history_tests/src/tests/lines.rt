//! Bodies look at the first values of a queue.

ghost use Rattle.std.specs.Prelude.{◌≡◌, ◌≤◌, length};
ghost use Rattle.md_history.specs.Plain.{IsPassOf};

use crate::tests::contents::{push, queue_is, queue_len};
use crate::tests::same;
use md_history::{Attempt, Body, Contents, Engine, Line, PlainPass, PlainStore, Stop, TxCalls};
use std::alloc::{AllocError, AllocGlobal};
use std::process::Abort;

// A body that puts 1 and 2 into a queue, and looks at its first value and at its first twelve.
#[derive(Clone, Copy, Drop)]
struct TwoLines;

impl Body for TwoLines {
    ghost use Rattle.std.specs.Prelude.{◌<◌};
    ghost use Rattle.md_history.specs.declared.acts.Reply.{Reply as AnyReply};
    ghost use Rattle.md_history.specs.declared.acts.Op.TheVariants.{Enqueue, Line as LineOp};
    ghost use Rattle.md_history.specs.declared.acts.Reply.TheVariants.{Line as LineReply};
    ghost use Rattle.md_history.specs.Script.{Did, Follows, call, done};

    type Reply = (Line, Line);

    ghost did = { λ b acts r. Did {R = AnyReply × AnyReply}
        (call (Enqueue 0 1) (λ _. call (Enqueue 0 2) (λ _.
        call (LineOp 0 1) (λ one. call (LineOp 0 12) (λ two. done (one, two))))))
        acts (LineReply r.0, LineReply r.1) };

    ghost makes = { λ b acts. Follows {R = AnyReply × AnyReply}
        (call (Enqueue 0 1) (λ _. call (Enqueue 0 2) (λ _.
        call (LineOp 0 1) (λ one. call (LineOp 0 12) (λ two. done (one, two))))))
        acts };

    ghost fits = { λ b maps queues. 0 < queues };

    fn go<T: TxCalls>(&self, t: &mut T) -> Result<(Line, Line), Stop> {
        t.enqueue(0, 1)?;
        t.enqueue(0, 2)?;
        Ok((t.line(0, 1)?, t.line(0, 12)?))
    }

    ghost did_makes = { λ b acts r did. did.follows };
}

// The values of the fullest queue.
const ALL: [u64; 13] = [1, 2, 3, 4, 5, 6, 7, 8, 9, 10, 11, 12, 13];

// Appends the values from 1 to `count` to a queue.
fn push_all(contents: &mut Contents, queue: u32, count: u64) -> Result<(), AllocError> {
    for value in &ALL {
        if *value <= count {
            push(contents, queue, *value)?;
        }
    }
    Ok(())
}

// A queue with the values from 1 to `count`, which is at most 13.
fn queue_of(rt: &(impl Abort + AllocGlobal), count: u64) -> Contents
    ensures { length result.queues ≡ 1 }
{
    let mut contents = Contents::empty(rt.alloc(), 0, 1).expect(rt, "memory");
    push_all(&mut contents, 0, count).expect(rt, "memory");
    assert!(rt; contents.queues().len() == 1);
    contents
}

// The values from 1 on, `count` of them, and zeros.
fn line_of(count: u8) -> Line {
    let mut values = [1, 2, 3, 4, 5, 6, 7, 8, 9, 10, 11, 12];
    for (place, value) in values.iter_mut().enumerate() {
        if place >= count as usize {
            *value = 0;
        }
    }
    Line { count, values }
}

// The line has the values from 1 on, `count` of them.
fn has_first(rt: &impl Abort, line: &Line, count: u8) {
    same(rt, line, &line_of(count));
}

// The body was committed, and its lines have the values from 1 on, so many of them.
fn has_lines(rt: &impl Abort, end: &Attempt<(Line, Line)>, one: u8, two: u8) {
    let Attempt::Committed(lines) = end else {
        panic!(rt; "not committed")
    };
    has_first(rt, &lines.0, one);
    has_first(rt, &lines.1, two);
}

#[test]
fn lines_are_looked_at(rt: HostRuntime) {
    let (store, mut pass) = PlainStore::open(queue_of(&rt, 0));
    let end = store.attempt(&mut pass, 1, &TwoLines);
    has_lines(&rt, &end, 1, 2);
}

// Runs the body, whatever its end.
fn run_once(store: &PlainStore, pass: &mut PlainPass, tag: u64)
    requires of { IsPassOf store.now pass.old }
    requires fits { length store.now.queues ≡ 1 }
    ensures { IsPassOf store.now pass.new }
{
    store.attempt(pass, tag, &TwoLines);
}

// How many entries a pass has before the body runs, and after it.
fn entries_of(store: &PlainStore, pass: &mut PlainPass) -> [usize; 2]
    requires of { IsPassOf store.now pass.old }
    requires fits { length store.now.queues ≡ 1 }
    ensures { IsPassOf store.now pass.new }
{
    let before = pass.entries().len();
    run_once(store, pass, 2);
    [before, pass.entries().len()]
}

#[test]
fn a_renewed_store_goes_on(rt: HostRuntime) {
    let (store, mut pass) = PlainStore::open(queue_of(&rt, 0));
    let alone = store.split(&mut pass).is_none();
    run_once(&store, &mut pass, 1);
    let (store, mut pass, _front) = store.renew(pass).expect(&rt, "memory");
    let entries = entries_of(&store, &mut pass);
    let (contents, _front) = store.contents(pass).expect(&rt, "memory");
    same(&rt, &(alone, entries), &(true, [0, 1]));
    queue_is(
        &rt,
        &contents,
        0,
        Some([Some(4), Some(1), Some(2), Some(1), Some(2)]),
    );
}

// A body that looks at the first `n` values of a queue.
#[derive(Clone, Copy, Drop)]
struct FirstValues {
    n: u8,
}

impl Body for FirstValues {
    ghost use Rattle.std.specs.Prelude.{◌<◌, ◌≤◌};
    ghost use Rattle.md_history.specs.declared.acts.Op.TheVariants.{Line as LineOp};
    ghost use Rattle.md_history.specs.declared.acts.Reply.TheVariants.{Line as LineReply};
    ghost use Rattle.md_history.specs.Script.{Did, Follows, call, done};

    type Reply = Line;

    ghost did = { λ b acts r. Did (call (LineOp 0 b.n) done) acts (LineReply r) };

    ghost makes = { λ b acts. Follows (call (LineOp 0 b.n) done) acts };

    ghost fits = { λ b maps queues. (0 < queues) × (1 ≤ b.n) × (b.n ≤ 12) };

    fn go<T: TxCalls>(&self, t: &mut T) -> Result<Line, Stop> {
        t.line(0, self.n)
    }

    ghost did_makes = { λ b acts r did. did.follows };
}

// A queue with the values from 1 to `there`, as many as that.
fn counted_queue(rt: &(impl Abort + AllocGlobal), there: u64) -> Contents
    ensures { length result.queues ≡ 1 }
{
    let start = queue_of(rt, there);
    same(rt, &queue_len(&start, 0), &Some(there));
    start
}

// What a body answers that looks at the first `n` values of the queue.
fn first_values(store: &PlainStore, pass: &mut PlainPass, n: u8) -> Attempt<Line>
    requires of { IsPassOf store.now pass.old }
    requires queue { length store.now.queues ≡ 1 }
    requires few { (1 ≤ n) × (n ≤ 12) }
{
    store.attempt(pass, 1, &FirstValues { n })
}

// A body looks at the first `n` values of a queue with the values from 1 to `there`, and gets
// `count` of them.
fn looks_at(rt: &(impl Abort + AllocGlobal), there: u64, n: u8, count: u8) {
    assert!(rt; 1 <= n && n <= 12);
    let (store, mut pass) = PlainStore::open(counted_queue(rt, there));
    let Attempt::Committed(line) = first_values(&store, &mut pass, n) else {
        panic!(rt; "not committed: {n} of {there}")
    };
    has_first(rt, &line, count);
}

// What a line has of a queue with the values from 1 on: how many there are, how many are asked for,
// and how many the line has.
#[test]
fn lines_are_the_first_values(rt: HostRuntime) {
    looks_at(&rt, 0, 1, 0);
    looks_at(&rt, 0, 12, 0);
    looks_at(&rt, 1, 1, 1);
    looks_at(&rt, 1, 12, 1);
    looks_at(&rt, 2, 1, 1);
    looks_at(&rt, 11, 12, 11);
    looks_at(&rt, 12, 12, 12);
    looks_at(&rt, 13, 12, 12);
    looks_at(&rt, 13, 2, 2);
}
