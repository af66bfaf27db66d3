//! A caller's attempts end.

ghost use Rattle.std.specs.Prelude.{◌≡◌};

use crate::compared::same;
use crate::gates::Counting;
use crate::lines::{EachLine, are_tags};
use crate::puts::Put;
use crate::refusing::{CONFLICT, LIMIT, NO_MEMORY, Refusing};
use md_history::{Limit, Stop};
use md_many::{End, Turn, attempt_lines};
use md_many_attempts::{Played, play_batches};
use std::alloc::{AllocError, AllocGlobal};
use std::process::Abort;
use std::sync::atomic::{AtomicU64, Ordering};

// A turn at three lines, and what it comes to.
#[derive(Drop)]
struct Row {
    // How the first four attempts stop, and all later ones like the fourth.
    stops: [Option<Stop>; 4],
    // The most attempts of the turn.
    most: u32,
    // How the turn ends, after so many lines and so many attempts.
    end: Result<End, AllocError>,
    lines: u64,
    attempts: u64,
}

// The turn of caller 2 at three lines.
fn turn_of(most: u32) -> Turn
    ensures { result ≡ record { caller = 2; done = 0; attempts = most } }
{
    Turn {
        caller: 2,
        done: 0,
        attempts: most,
    }
}

// Three lines of each of two callers.
const LINES: EachLine<Put> = EachLine {
    callers: 2,
    lines: 3,
    like: Put { number: 0 },
};

// Plays three lines of caller 2; each line that is played has its own tag as reply and in the queue.
// Returns how the turn ended, and how many entries and replies there are.
fn play_three<R: Abort + AllocGlobal>(
    rt: &R,
    made: &AtomicU64,
    stops: [Option<Stop>; 4],
    most: u32,
    gate: &Counting,
) -> (Result<End, AllocError>, usize, usize) {
    let alloc = rt.alloc();
    let (engine, mut pass) = Refusing::open(alloc, made, stops).expect(rt, "memory");
    let mut replies = Vec::with_capacity(alloc, 3).expect(rt, "memory");
    let end = attempt_lines(
        &engine,
        &mut pass,
        &LINES,
        turn_of(most),
        gate,
        &mut replies,
    );
    are_tags(rt, 8_589_934_592, &replies);
    (end, pass.pass.entries().len(), replies.len())
}

// The same in batches. Where memory runs out, the replies are lost: there are as many as entries.
fn play_three_in_batches<R: Abort + AllocGlobal>(
    rt: &R,
    made: &AtomicU64,
    stops: [Option<Stop>; 4],
    most: u32,
    gate: &Counting,
) -> (Result<End, AllocError>, usize, usize) {
    let alloc = rt.alloc();
    let (engine, mut pass) = Refusing::open(alloc, made, stops).expect(rt, "memory");
    let played: Result<Played<Vec<u64>>, AllocError> = play_batches(
        alloc,
        &engine,
        &mut pass,
        &LINES,
        turn_of(most),
        gate,
    );
    let entries = pass.pass.entries().len();
    match played {
        Ok(Played { end, replies }) => {
            are_tags(rt, 8_589_934_592, &replies);
            (Ok(end), entries, replies.len())
        }
        Err(error) => (Err(error), entries, entries),
    }
}

// Compares how a turn ended, how many entries and replies it left, what its gate saw, and how many
// attempts were made, with what its row says.
fn compare<R: Abort>(
    rt: &R,
    row: &Row,
    found: (Result<End, AllocError>, usize, usize),
    gate: &Counting,
    made: &AtomicU64,
) {
    let (end, entries, replies) = found;
    let seen = [
        gate.before.get(),
        gate.after.get(),
        entries as u64,
        replies as u64,
    ];
    let made = made.load(Ordering::SeqCst);
    same(
        rt,
        &(end, seen, made, gate.right.get()),
        &(
            row.end,
            [row.attempts, row.lines, row.lines, row.lines],
            row.attempts,
            true,
        ),
    );
}

// The turn comes to what its row says, in one batch and in batches.
fn turn_ends<R: Abort + AllocGlobal>(rt: &R, row: Row) {
    let made = AtomicU64::new(0);
    let gate = Counting::new(&made, 2);
    let found = play_three(rt, &made, row.stops, row.most, &gate);
    compare(rt, &row, found, &gate, &made);
    let made = AtomicU64::new(0);
    let gate = Counting::new(&made, 2);
    let found = play_three_in_batches(rt, &made, row.stops, row.most, &gate);
    compare(rt, &row, found, &gate, &made);
}

#[test]
fn turns_end_early(rt: HostRuntime) {
    let rows = [
        Row {
            stops: [None, LIMIT, None, None],
            most: 9,
            end: Ok(End::Limit(Limit::Nodes)),
            lines: 1,
            attempts: 2,
        },
        Row {
            stops: [None, CONFLICT, NO_MEMORY, None],
            most: 9,
            end: Err(AllocError),
            lines: 1,
            attempts: 3,
        },
        Row {
            stops: [NO_MEMORY, None, None, None],
            most: 9,
            end: Err(AllocError),
            lines: 0,
            attempts: 1,
        },
    ];
    for row in rows {
        turn_ends(&rt, row);
    }
}

#[test]
fn turns_end_with_their_lines_or_attempts(rt: HostRuntime) {
    let rows = [
        Row {
            stops: [None; 4],
            most: 9,
            end: Ok(End::Lines),
            lines: 3,
            attempts: 3,
        },
        Row {
            stops: [None; 4],
            most: 2,
            end: Ok(End::Attempts),
            lines: 2,
            attempts: 2,
        },
        Row {
            stops: [CONFLICT, None, CONFLICT, None],
            most: 9,
            end: Ok(End::Lines),
            lines: 3,
            attempts: 5,
        },
        Row {
            stops: [CONFLICT; 4],
            most: 3,
            end: Ok(End::Attempts),
            lines: 0,
            attempts: 3,
        },
        Row {
            stops: [CONFLICT, CONFLICT, CONFLICT, None],
            most: 4,
            end: Ok(End::Attempts),
            lines: 1,
            attempts: 4,
        },
    ];
    for row in rows {
        turn_ends(&rt, row);
    }
}

// 256 conflicts in a row end a turn, across its batches of 128 attempts. A line begins a new row.
#[test]
fn turns_end_by_conflicts_in_a_row(rt: HostRuntime) {
    let rows = [
        Row {
            stops: [CONFLICT; 4],
            most: 1_000,
            end: Ok(End::Conflicts),
            lines: 0,
            attempts: 256,
        },
        Row {
            stops: [CONFLICT; 4],
            most: 255,
            end: Ok(End::Attempts),
            lines: 0,
            attempts: 255,
        },
        Row {
            stops: [CONFLICT, CONFLICT, None, CONFLICT],
            most: 1_000,
            end: Ok(End::Conflicts),
            lines: 1,
            attempts: 259,
        },
    ];
    for row in rows {
        turn_ends(&rt, row);
    }
}
