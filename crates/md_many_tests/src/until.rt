//! One body until it is committed.

ghost use Rattle.std.specs.Prelude.{◌≤◌};

use crate::compared::same;
use crate::puts::Put;
use crate::refusing::{CONFLICT, LATER, LIMIT, NO_MEMORY, Refusing};
use md_history::{Attempt, Entry, Stop};
use md_many::attempt_until_committed;
use std::alloc::AllocGlobal;
use std::process::Abort;
use std::sync::atomic::{AtomicU64, Ordering};

// The tag of a body that is attempted until it is committed, and its number.
const TAG: u64 = 5;

const NUMBER: u64 = 7;

// How many entries there are, and the tag of the last one.
fn last_of(entries: &[Entry]) -> (usize, u64) {
    match entries.last() {
        Some(entry) => (entries.len(), entry.tag),
        None => (0, TAG),
    }
}

// Attempts a body until it is committed. Returns how the last attempt ended, how many entries the
// history has then, and the tag of the last one.
fn put_until_committed<R: Abort + AllocGlobal>(
    rt: &R,
    attempts: &AtomicU64,
    stops: &[Option<Stop>; 4],
    most: u32,
) -> (Attempt<u64>, (usize, u64))
    requires { 1 ≤ most }
{
    let (engine, mut pass) = Refusing::open(rt.alloc(), attempts, *stops).expect(rt, "memory");
    let end = attempt_until_committed(&engine, &mut pass, TAG, &Put { number: NUMBER }, most);
    (end, last_of(pass.pass.entries()))
}

// The last attempt ends so, after so many attempts. `None` is a body that was committed: the history
// has its entry; else it has none.
fn body_ends<R: Abort + AllocGlobal>(
    rt: &R,
    stops: &[Option<Stop>; 4],
    most: u32,
    end: Option<Stop>,
    attempts: u64,
)
    requires { 1 ≤ most }
{
    let (want, entries) = match end {
        None => (Attempt::Committed(NUMBER), 1),
        Some(stop) => (Attempt::Stopped(stop), 0),
    };
    let made = AtomicU64::new(0);
    let (ended, last) = put_until_committed(rt, &made, stops, most);
    same(
        rt,
        &(ended, last, made.load(Ordering::SeqCst)),
        &(want, (entries, TAG), attempts),
    );
}

#[test]
fn one_body_until_committed(rt: HostRuntime) {
    body_ends(&rt, &[None; 4], 1, None, 1);
    body_ends(&rt, &[CONFLICT, CONFLICT, None, None], u32::MAX, None, 3);
    body_ends(&rt, &[CONFLICT, CONFLICT, CONFLICT, None], 5, None, 4);
    body_ends(&rt, &[CONFLICT; 4], 1_000, CONFLICT, 1_000);
    body_ends(&rt, &[CONFLICT, CONFLICT, LATER, None], 3, LATER, 3);
    body_ends(&rt, &[CONFLICT; 4], 1, CONFLICT, 1);
    body_ends(&rt, &[CONFLICT, LIMIT, None, None], u32::MAX, LIMIT, 2);
    body_ends(&rt, &[NO_MEMORY, None, None, None], u32::MAX, NO_MEMORY, 1);
}
