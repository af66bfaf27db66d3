//! Attempts at lines, over any store.

ghost use Rattle.std.specs.Prelude.{◌<◌, ◌≤◌, length, vec_capacity, OnOk};
ghost use Rattle.md_history.specs.Attempt.{CountsAttempt, IfCommitted, IfStopped, IsAtomic};
ghost use Rattle.md_many_attempts.specs.Tags.{tag_of};
ghost use Rattle.md_many_attempts.specs.Meaning.{meaning_of};
ghost use Rattle.md_many_attempts.specs.Turns.{CanPlayTurn, IsRoomFor, HoldsAsBefore, PlaysTurn};
ghost use Rattle.md_many_attempts.specs.Turns.{PlaysEnough, EndsTurn, stretch};
ghost use Rattle.md_many_attempts.specs.Batches.{CanPlayBatch, EndsBatch};
ghost use Rattle.md_many_attempts.specs.Until.{MayStop};

use crate::callers::Lines;
use crate::gates::Gate;
use crate::pauses::Streak;
use crate::steps::{Place, after_stop, next_line, try_line};
use crate::tags::line_tag;
use md_history::{Attempt, Body, Engine, Limit, Stop, pass_is_legal};
use std::alloc::AllocError;

/// One caller's part of a round.
#[derive(Clone, Copy, Debug, PartialEq, Eq)]
pub struct Turn {
    /// The caller, counted from 1.
    pub caller: u32,
    /// How many of the caller's lines were played before, 0 to the number of its lines.
    pub done: u32,
    /// How many attempts the caller may make: any number. With 0 it makes none.
    pub attempts: u32,
}

/// Why a turn ended.
#[derive(Clone, Copy, Debug, PartialEq, Eq)]
pub enum End {
    /// The caller has no line left, and the turn has an attempt left.
    Lines,
    /// The caller made as many attempts as the turn has. It may also have no line left.
    Attempts,
    /// An attempt met this limit of the engine.
    Limit(Limit),
    /// `MOST_CONFLICTS` attempts, one after another, met a conflict.
    Conflicts,
}

/// A batch of a turn's attempts, and the conflicts in a row before it.
#[derive(Clone, Copy)]
pub(crate) struct Batch {
    pub(crate) turn: Turn,
    pub(crate) streak: Streak,
}

/// How many conflicts in a row end a turn.
pub const MOST_CONFLICTS: u32 = 256;

/// Attempts a body once, under the tag of a caller's line (`line_tag`). It calls `before` of the
/// gate, then `Engine::attempt`, and then `after` of the gate if the attempt was committed. It
/// returns the end of the attempt as the engine gave it.
pub fn attempt_line<E: Engine, B: Body, G: Gate>(
    engine: &E,
    pass: &mut E::Pass,
    caller: u32,
    line: u32,
    body: &B,
    gate: &G,
) -> Attempt<B::Reply>
    requires of { E.of engine.now pass.old }
    requires fits { B.fits body.now
        (length (E.start engine.now).maps) (length (E.start engine.now).queues) }
    ensures atomic { IsAtomic (B.did body.now) (tag_of caller line) (E.start engine.now) result
        (E.front pass.old) (E.front pass.new) }
    ensures of { E.of engine.now pass.new }
    ensures begun { CountsAttempt result (E.begun pass.old) (E.begun pass.new) }
    ensures before { G.before_called gate.now caller line }
    ensures after { IfCommitted result (λ _. G.after_called gate.now caller line) }
    ensures stops { IfStopped result (MayStop E.Engine engine.now (B.makes body.now) pass.old) }
{
    gate.before(caller, line);
    let attempt = engine.attempt(pass, line_tag(caller, line), body);
    if let Attempt::Committed(_) = &attempt {
        gate.after(caller, line);
    }
    attempt
}

/// Plays a caller's turn: it attempts the caller's lines after the first `turn.done`, in order. If
/// a line is committed, its reply goes to the end of `replies`, and the next line follows. If a
/// line meets a conflict, it is attempted again. The turn ends when the caller has no line left,
/// when it has made `turn.attempts` attempts, when an attempt meets a limit, or after
/// `MOST_CONFLICTS` conflicts in a row. `Ok` has the cause (`End`).
///
/// `replies` is empty, and has room for a reply to each line that the turn can play. Their number
/// is the smaller of `turn.attempts` and the number of lines left. So this call takes no memory of
/// its own.
///
/// After a conflict it pauses for a random number of turns of the spin hint, below 2^n after n
/// conflicts in a row and below 4,096. No clause speaks of time. The turn begins at most
/// `MOST_CONFLICTS` attempts for each line that it plays, and as many after the last one.
///
/// It returns `AllocError` if an attempt of the engine runs out of memory. This ends the turn too.
/// In every case the lanes of the pass committed exactly the lines whose replies are in `replies`,
/// each under its own tag. If the pass is fresh, each lane has an attempt, the turn has an attempt
/// and a line, and this line is within the engine's limits, then `Ok` means that a line was played.
pub fn attempt_lines<E: Engine, L: Lines, G: Gate>(
    engine: &E,
    pass: &mut E::Pass,
    lines: &L,
    turn: Turn,
    gate: &G,
    replies: &mut Vec<<L::B as Body>::Reply>,
) -> Result<End, AllocError>
    requires of { E.of engine.now pass.old }
    requires turn { CanPlayTurn (meaning_of L.B.Body L.Lines lines.now) (E.start engine.now) turn }
    requires replies { IsRoomFor (meaning_of L.B.Body L.Lines lines.now) turn replies.old }
    ensures pass { HoldsAsBefore E.Engine engine.now pass.old pass.new }
    ensures turn { PlaysTurn E.Engine (meaning_of L.B.Body L.Lines lines.now)
        (G.after_called gate.now) turn pass.old pass.new replies.new.items }
    ensures enough { OnOk result (PlaysEnough E.Engine engine.now
        (meaning_of L.B.Body L.Lines lines.now) turn pass.old (length replies.new.items)) }
    ensures end { EndsTurn (stretch E.Engine engine.now (meaning_of L.B.Body L.Lines lines.now) turn
        pass.old pass.new replies.new.items) result }
    ensures room { vec_capacity replies.old ≤ vec_capacity replies.new }
{
    let streak = Streak::new(line_tag(turn.caller, turn.done));
    let batch = Batch { turn, streak };
    let (end, _) = attempt_batch(engine, pass, lines, batch, gate, replies)?;
    Ok(end)
}

/// Plays a batch of a turn, as `attempt_lines` plays a turn. But it counts conflicts in a row from
/// those before the batch. Beside the cause it returns the conflicts in a row at the end.
pub(crate) fn attempt_batch<E: Engine, L: Lines, G: Gate>(
    engine: &E,
    pass: &mut E::Pass,
    lines: &L,
    batch: Batch,
    gate: &G,
    replies: &mut Vec<<L::B as Body>::Reply>,
) -> Result<(End, Streak), AllocError>
    requires of { E.of engine.now pass.old }
    requires batch { CanPlayBatch (meaning_of L.B.Body L.Lines lines.now) (E.start engine.now)
        batch }
    requires replies { IsRoomFor (meaning_of L.B.Body L.Lines lines.now) batch.turn replies.old }
    ensures pass { HoldsAsBefore E.Engine engine.now pass.old pass.new }
    ensures turn { PlaysTurn E.Engine (meaning_of L.B.Body L.Lines lines.now)
        (G.after_called gate.now) batch.turn pass.old pass.new replies.new.items }
    ensures enough { OnOk result (PlaysEnough E.Engine engine.now
        (meaning_of L.B.Body L.Lines lines.now) batch.turn pass.old (length replies.new.items)) }
    ensures end { EndsBatch (stretch E.Engine engine.now (meaning_of L.B.Body L.Lines lines.now)
        batch.turn pass.old pass.new replies.new.items) batch.streak.conflicts result }
    ensures room { vec_capacity replies.old ≤ vec_capacity replies.new }
{
    pass_is_legal(engine, pass);
    let Batch { turn, streak } = batch;
    let Streak {
        mut conflicts,
        mut random,
    } = streak;
    let count = lines.len(turn.caller);
    'attempts: for tried in 0..turn.attempts {
        let Some(line) = next_line(turn.done, replies.len(), count) else {
            return Ok((End::Lines, Streak { conflicts, random }));
        };
        let place = Place {
            caller: turn.caller,
            line,
        };
        match try_line(engine, pass, lines, place, gate, replies) {
            None => conflicts = 0,
            Some(stop) => {
                if let Some(end) = after_stop(stop, &mut conflicts, &mut random)? {
                    return Ok((end, Streak { conflicts, random }));
                }
            }
        }
    }
    Ok((End::Attempts, Streak { conflicts, random }))
}
