//! Commands over the store for one thread.

ghost use Rattle.md_history.specs.Plain.{IsPassOf};
ghost use Rattle.md_book.specs.Stands.{IsBookSized};

mod fills;
mod kills;
mod limits;
mod rows;

use crate::tests::in_range::is_lawful;
use crate::tests::shown::same;
use md_book::{LEVELS, MAPS};
use md_history::{Attempt, Contents, Engine, PlainPass, PlainStore};
use rows::step_in;
use std::alloc::AllocGlobal;
use std::process::Abort;

// Plays a row. If the outcome is another than the reply beside the command, the row is added to
// `wrong`, with that outcome.
fn play_row(
    rt: &impl Abort,
    store: &PlainStore,
    pass: &mut PlainPass,
    row: &str,
    wrong: &mut String,
)
    requires sized { IsBookSized store.now }
    requires of { IsPassOf store.now pass.old }
    ensures { IsPassOf store.now pass.new }
{
    let (command, reply) = step_in(row).expect(rt, "a row that can be read");
    if !is_lawful(command) {
        panic!(rt; "a command is out of range")
    }
    let found = store.attempt(pass, 1, &command);
    if found != Attempt::Committed(reply) {
        writeln!(wrong, "{row} but {found:?}").expect(rt, "memory");
    }
}

// Whether a line of a day is a row. Others are blank, or remarks, which begin with the sign `#`.
fn is_row(line: &str) -> bool {
    !matches!(line.trim().as_bytes().first(), None | Some(b'#'))
}

// Plays the rows of a day, each on a line of its own, and gathers those that are wrong. It answers
// how many there are.
fn play_rows(
    rt: &impl Abort,
    store: &PlainStore,
    pass: &mut PlainPass,
    day: &str,
    wrong: &mut String,
) -> u32
    requires sized { IsBookSized store.now }
    requires of { IsPassOf store.now pass.old }
    ensures { IsPassOf store.now pass.new }
{
    let mut rows = 0u32;
    for line in day.lines() {
        if is_row(line) {
            play_row(rt, store, pass, line, wrong);
            rows = rows.saturating_add(1);
        }
    }
    rows
}

// A store with an empty book.
fn empty_book<R: Abort + AllocGlobal>(rt: &R) -> (PlainStore, PlainPass)
    ensures sized { IsBookSized result.0 }
    ensures of { IsPassOf result.0 result.1 }
{
    PlainStore::open(Contents::empty(rt.alloc(), MAPS, LEVELS).expect(rt, "memory"))
}

// Plays a day of so many rows on an empty book, and tells each wrong row. It answers what the store
// contains then.
fn play<R: Abort + AllocGlobal>(rt: &R, day: &str, rows: u32) -> Contents
    ensures { IsBookSized result }
{
    let (store, mut pass) = empty_book(rt);
    let mut wrong = String::new(rt.alloc());
    let played = play_rows(rt, &store, &mut pass, day, &mut wrong);
    same(rt, &(played, wrong.as_str()), &(rows, ""));
    let (contents, _) = store.contents(pass).expect(rt, "memory");
    contents
}
