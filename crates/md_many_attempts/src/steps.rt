//! One attempt of a turn: which line it is at, the attempt, and what follows a stop.

ghost use Rattle.std.specs.Prelude.{◌≡◌, ◌<◌, ◌≤◌, ◌+◌, ◌∷◌, ◌++◌, [], vec_len, vec_capacity};
ghost use Rattle.std.specs.Prelude.{IfSome, IfNone, IfOk, OnErr};
ghost use Rattle.md_many_attempts.specs.Meaning.{meaning_of};
ghost use Rattle.md_many_attempts.specs.Steps.{CanAttempt, AddsLine, StopsAt};
ghost use Rattle.md_many_attempts.specs.Steps.{IsAnotherConflict, EndsOn};

use crate::attempts::{End, MOST_CONFLICTS};
use crate::callers::Lines;
use crate::gates::Gate;
use crate::pauses::pause;
use crate::tags::line_tag;
use md_history::{Attempt, Body, Engine, Stop};
use std::alloc::AllocError;

/// Where a line stands: its caller and its number, both counted from 1.
#[derive(Clone, Copy)]
pub(crate) struct Place {
    pub(crate) caller: u32,
    pub(crate) line: u32,
}

/// The line after so many that were played, if the caller has one left.
#[inline(always)]
pub(crate) fn next_line(done: u32, played: usize, count: u32) -> Option<u32>
    requires { done + played ≤ count }
    ensures line { IfSome result (λ line. line ≡ done + played + 1) }
    ensures left { IfSome result (λ line. line ≤ count) }
    ensures none { IfNone result (done + played ≡ count) }
{
    let last = done + played as u32;
    if last == count {
        return None;
    }
    Some(last + 1)
}

// Appends a reply to a list that has room for it.
fn put<R: Drop>(replies: &mut Vec<R>, reply: R)
    requires { vec_len replies.old < vec_capacity replies.old }
    ensures items { replies.new.items ≡ replies.old.items ++ reply ∷ [] }
    ensures len { vec_len replies.new ≡ vec_len replies.old + 1 }
    ensures capacity { vec_capacity replies.old ≤ vec_capacity replies.new }
{
    let Ok(()) = replies.push(reply) else {
        unreachable!()
    };
}

/// Attempts the line at a place once, and tells the gate before and after. If the attempt is
/// committed, its reply goes to the end of `replies`, and the result is `None`. Otherwise it is the
/// stop.
///
/// It isn't `attempt_line`, whose result would be copied once more.
#[inline(always)]
pub(crate) fn try_line<E: Engine, L: Lines, G: Gate>(
    engine: &E,
    pass: &mut E::Pass,
    lines: &L,
    place: Place,
    gate: &G,
    replies: &mut Vec<<L::B as Body>::Reply>,
) -> Option<Stop>
    requires of { E.of engine.now pass.old }
    requires line { CanAttempt (meaning_of L.B.Body L.Lines lines.now) (E.start engine.now) place }
    requires room { vec_len replies.old < vec_capacity replies.old }
    ensures of { E.of engine.now pass.new }
    ensures committed { IfNone result (AddsLine E.Engine (meaning_of L.B.Body L.Lines lines.now)
        (G.after_called gate.now) place pass.old pass.new replies.old.items replies.new.items) }
    ensures stopped { IfSome result (StopsAt E.Engine engine.now
        (meaning_of L.B.Body L.Lines lines.now) place pass.old pass.new) }
    ensures same { IfSome result (λ _. replies.new ≡ replies.old) }
    ensures room { vec_capacity replies.old ≤ vec_capacity replies.new }
{
    let Place { caller, line } = place;
    let Some(body) = lines.body(caller, line) else {
        unreachable!()
    };
    gate.before(caller, line);
    match engine.attempt(pass, line_tag(caller, line), &body) {
        Attempt::Committed(reply) => {
            put(replies, reply);
            gate.after(caller, line);
            None
        }
        Attempt::Stopped(stop) => Some(stop),
    }
}

/// What follows a stop: `None` if the line is attempted again, since it met a conflict, and not so
/// many in a row that they end the turn. Then it has paused. Otherwise the end of the turn.
#[inline(always)]
pub(crate) fn after_stop(
    stop: Stop,
    conflicts: &mut u32,
    random: &mut u64,
) -> Result<Option<End>, AllocError>
    requires { conflicts.old < MOST_CONFLICTS }
    ensures again { IfOk result (λ end.
        IfNone end (IsAnotherConflict stop conflicts.old conflicts.new)) }
    ensures end { IfOk result (λ end. IfSome end (EndsOn stop conflicts.old)) }
    ensures no_memory { OnErr result (stop ≡ Stop.NoMemory) }
{
    match stop {
        Stop::Conflict(shown) => {
            *conflicts += 1;
            if *conflicts == MOST_CONFLICTS {
                return Ok(Some(End::Conflicts));
            }
            *random = pause(*random, *conflicts, shown);
            Ok(None)
        }
        Stop::Limit(limit) => Ok(Some(End::Limit(limit))),
        Stop::NoMemory => Err(AllocError),
    }
}
