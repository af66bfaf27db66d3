//! A caller's turn, batch by batch.

ghost use Rattle.std.specs.Prelude.{IfOk};
ghost use Rattle.md_many_attempts.specs.Meaning.{meaning_of};
ghost use Rattle.md_many_attempts.specs.Turns.{CanPlayTurn, HoldsAsBefore, PlaysTurn, EndsBy};
ghost use Rattle.md_many_attempts.specs.Turns.{stretch};

use crate::attempts::{Batch, End, Turn, attempt_batch};
use crate::callers::Lines;
use crate::gates::Gate;
use crate::pauses::Streak;
use crate::reply_lists::ReplyList;
use crate::tags::line_tag;
use md_history::{Body, Engine, pass_is_legal};
use std::alloc::{AllocError, Global};

// The most attempts of a batch. The replies of so many stay in the nearest cache until they are
// appended, also where a reply takes 200 bytes.
const BATCH: u32 = 128;

/// The result of a caller's turn: why it ended, and the replies of the lines that it played.
#[derive(Drop)]
pub struct Played<T> {
    pub end: End,
    pub replies: T,
}

/// Plays a caller's turn in batches of at most 128 attempts, each like `attempt_lines`. Conflicts
/// in a row are counted from batch to batch. The replies of each batch have a vector of their own,
/// which is then appended to the list of the turn. The turn ends with a batch that has an attempt
/// left, or with the last of `turn.attempts`. The result says why the turn ended. Of the engine,
/// the lines and `turn.done` it needs what `attempt_lines` does.
///
/// A batch takes room for its replies at once: the smaller of its attempts and of the lines left.
///
/// `AllocError` if memory runs out, here, at the list or in an attempt of the engine. Then the
/// replies are lost.
pub fn play_batches<E, L, G, T>(
    alloc: Global,
    engine: &E,
    pass: &mut E::Pass,
    lines: &L,
    turn: Turn,
    gate: &G,
) -> Result<Played<T>, AllocError>
where
    E: Engine,
    L: Lines,
    G: Gate,
    T: ReplyList<<L::B as Body>::Reply>,
    requires of { E.of engine.now pass.old }
    requires turn { CanPlayTurn (meaning_of L.B.Body L.Lines lines.now) (E.start engine.now) turn }
    ensures pass { HoldsAsBefore E.Engine engine.now pass.old pass.new }
    ensures turn { IfOk result (λ p. PlaysTurn E.Engine (meaning_of L.B.Body L.Lines lines.now)
        (G.after_called gate.now) turn pass.old pass.new (T.listed p.replies)) }
    ensures end { IfOk result (λ p. EndsBy (stretch E.Engine engine.now
        (meaning_of L.B.Body L.Lines lines.now) turn pass.old pass.new (T.listed p.replies))
        p.end) }
{
    pass_is_legal(engine, pass);
    let count = lines.len(turn.caller);
    let caller = turn.caller;
    let mut replies = T::new(alloc);
    let mut done = turn.done;
    let mut left = turn.attempts;
    let mut streak = Streak::new(line_tag(caller, done));
    'batches: while left > 0 {
        let attempts = left.min(BATCH);
        let turn = Turn {
            caller,
            done,
            attempts,
        };
        let batch = Batch { turn, streak };
        let mut more = Vec::with_capacity(alloc, attempts.min(count - done) as usize)?;
        let (end, after) = attempt_batch(engine, pass, lines, batch, gate, &mut more)?;
        pass_is_legal(engine, pass);
        streak = after;
        done += more.len() as u32;
        left -= attempts;
        replies.append(more)?;
        let End::Attempts = end else {
            return Ok(Played { end, replies });
        };
    }
    Ok(Played {
        end: End::Attempts,
        replies,
    })
}
