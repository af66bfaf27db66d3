//! Attempts at one body until it is committed.

ghost use Rattle.std.specs.Prelude.{◌≤◌, length, IfSome, IfNone};
ghost use Rattle.md_history.specs.Attempt.{IfStopped};
ghost use Rattle.md_many_attempts.specs.Until.{IsAtomicAtLast, HasBegun, MayStop, MeetsConflict};

use crate::pauses::pause;
use md_history::{Attempt, Body, Engine, Shown, Stop, pass_is_legal};

// What an attempt met that met a conflict. Nothing else lets the body be attempted again.
#[inline(always)]
fn conflict_of<R>(attempt: &Attempt<R>) -> Option<Shown>
    ensures conflict { IfSome result (λ _. MeetsConflict attempt.now) }
    ensures other { IfNone result (MeetsConflict attempt.now → ⊥) }
{
    match attempt {
        Attempt::Stopped(Stop::Conflict(shown)) => Some(*shown),
        Attempt::Stopped(Stop::Limit(_) | Stop::NoMemory) | Attempt::Committed(_) => None,
    }
}

/// Attempts a body until it is committed, under one tag, which may be any number. `most` is the
/// most attempts: 1 or more, and `u32::MAX` for as many as it takes.
///
/// It returns how the last attempt ended. `Committed` has the reply of the body: the entry of this
/// attempt is the last of the history, and no other attempt was committed. `Stopped` means that the
/// body took no effect. Its cause is a conflict only if `most` attempts met one. A limit of the
/// engine, or running out of memory, ends the call at once. If the pass holds all lanes, it makes
/// one attempt, which meets no conflict.
///
/// The cost is that of `Engine::attempt`, once for each attempt. After a conflict it pauses for a
/// random number of turns of the spin hint, below 2^n after n conflicts and below 4,096. It takes
/// no memory of its own. No clause speaks of time.
pub fn attempt_until_committed<E: Engine, B: Body>(
    engine: &E,
    pass: &mut E::Pass,
    tag: u64,
    body: &B,
    most: u32,
) -> Attempt<B::Reply>
    requires of { E.of engine.now pass.old }
    requires fits { B.fits body.now
        (length (E.start engine.now).maps) (length (E.start engine.now).queues) }
    requires most { 1 ≤ most }
    ensures atomic { IsAtomicAtLast (B.did body.now) tag most (E.start engine.now) result
        (E.front pass.old) (E.front pass.new) }
    ensures of { E.of engine.now pass.new }
    ensures begun { HasBegun E.Engine engine.now most result pass.old pass.new }
    ensures stops { IfStopped result (MayStop E.Engine engine.now (B.makes body.now) pass.old) }
{
    pass_is_legal(engine, pass);
    let mut random = tag;
    'attempts: for tried in 0..most - 1 {
        let end = engine.attempt(pass, tag, body);
        let Some(shown) = conflict_of(&end) else {
            return end;
        };
        random = pause(random, tried + 1, shown);
    }
    engine.attempt(pass, tag, body)
}
