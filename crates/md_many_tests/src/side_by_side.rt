//! Two callers that play their lines side by side.

ghost use Rattle.std.specs.Prelude.{◌≡◌, List, length, IfOk};
ghost use Rattle.md_history.specs.Engine.{lanes_kept, lanes_given};
ghost use Rattle.md_many_attempts.specs.Lines.{AreFitting, PlaysLines};
ghost use Rattle.md_many_attempts.specs.Meaning.{meaning_of};

use crate::compared::same;
use crate::lines::EachLine;
use crate::puts::Put;
use md_history::{Body, Contents, Engine, PlainStore, pass_is_legal};
use md_many::{FreeGate, Lines, Turn, attempt_lines};
use std::alloc::{AllocError, Global};
use std::thread;
use std::thread::Threads;

// Plays all lines of a caller with a pass of its own.
fn play_own<E: Engine, L: Lines>(
    alloc: Global,
    engine: &E,
    pass: E::Pass,
    lines: &L,
    caller: u32,
) -> Result<E::Pass, AllocError>
    requires of { E.of engine.now pass }
    requires fits { AreFitting (meaning_of L.B.Body L.Lines lines.now) (E.start engine.now) }
    ensures of { IfOk result (λ p. E.of engine.now p) }
    ensures lanes { IfOk result (λ p. (E.front p).lanes ≡ (E.front pass).lanes) }
    ensures lines { IfOk result (λ p.
        (rs : List L.B.Reply) × PlaysLines (meaning_of L.B.Body L.Lines lines.now) caller 0
        (E.front pass).lanes (E.front pass) (E.front p) rs) }
{
    let attempts = lines.len(caller);
    let mut pass = pass;
    let mut replies = Vec::with_capacity(alloc, attempts as usize)?;
    let turn = Turn {
        caller,
        done: 0,
        attempts,
    };
    attempt_lines(engine, &mut pass, lines, turn, &FreeGate, &mut replies)?;
    Ok(pass)
}

// Two callers play their lines side by side, each with half of the pass's lanes, where the pass can
// be split; else the first plays alone. The pass that is left holds the lanes that the first pass
// held, and each half played the lines of its caller.
fn two_callers<R: Threads + Sync, E: Engine, L: Lines>(
    rt: &R,
    alloc: Global,
    engine: &E,
    pass: E::Pass,
    lines: &L,
) -> Result<E::Pass, AllocError>
where
    L::B: Send,
    <L::B as Body>::Reply: Send,
    requires of { E.of engine.now pass }
    requires fits { AreFitting (meaning_of L.B.Body L.Lines lines.now) (E.start engine.now) }
    ensures of { IfOk result (λ p. E.of engine.now p) }
    ensures lanes { IfOk result (λ p. (E.front p).lanes ≡ (E.front pass).lanes) }
    ensures alone { length (E.front pass).lanes ≡ 1 → IfOk result (λ p.
        (rs : List L.B.Reply) × PlaysLines (meaning_of L.B.Body L.Lines lines.now) 1 0
        (E.front pass).lanes (E.front pass) (E.front p) rs) }
    ensures first { ¬ (length (E.front pass).lanes ≡ 1) → IfOk result (λ p.
        (rs : List L.B.Reply) × PlaysLines (meaning_of L.B.Body L.Lines lines.now) 1 0
        (lanes_kept (E.front pass).lanes) (E.front pass) (E.front p) rs) }
    ensures second { ¬ (length (E.front pass).lanes ≡ 1) → IfOk result (λ p.
        (rs : List L.B.Reply) × PlaysLines (meaning_of L.B.Body L.Lines lines.now) 2 0
        (lanes_given (E.front pass).lanes) (E.front pass) (E.front p) rs) }
{
    pass_is_legal(engine, &pass);
    let mut pass = pass;
    let Some(other) = engine.split(&mut pass) else {
        return play_own(alloc, engine, pass, lines, 1);
    };
    let (first, second) = thread::join(
        rt,
        move || -> Result<E::Pass, AllocError>
            requires of { E.of engine.now pass }
            requires fits { AreFitting (meaning_of L.B.Body L.Lines lines.now) (E.start engine.now) }
            ensures of { IfOk result (λ p. E.of engine.entry.now p) }
            ensures lanes { IfOk result (λ p. (E.front p).lanes ≡ (E.front pass).lanes) }
            ensures lines { IfOk result (λ p.
                (rs : List L.B.Reply) × PlaysLines (meaning_of L.B.Body L.Lines lines.entry.now) 1 0
                (E.front pass).lanes (E.front pass) (E.front p) rs) }
        { play_own(alloc, engine, pass, lines, 1) },
        move || -> Result<E::Pass, AllocError>
            requires of { E.of engine.now other }
            requires fits { AreFitting (meaning_of L.B.Body L.Lines lines.now) (E.start engine.now) }
            ensures of { IfOk result (λ p. E.of engine.entry.now p) }
            ensures lanes { IfOk result (λ p. (E.front p).lanes ≡ (E.front other).lanes) }
            ensures lines { IfOk result (λ p.
                (rs : List L.B.Reply) × PlaysLines (meaning_of L.B.Body L.Lines lines.entry.now) 2 0
                (E.front other).lanes (E.front other) (E.front p) rs) }
        { play_own(alloc, engine, other, lines, 2) },
    );
    let mut joined = first?;
    pass_is_legal(engine, &joined);
    let other = second?;
    pass_is_legal(engine, &other);
    engine.join(&mut joined, other);
    pass_is_legal(engine, &joined);
    Ok(joined)
}

#[test]
fn callers_in_threads(rt: HostRuntime) {
    let alloc = rt.alloc();
    let (store, pass) = PlainStore::open(Contents::empty(alloc, 0, 1).expect(&rt, "memory"));
    let lines = EachLine {
        callers: 2,
        lines: 3,
        like: Put { number: 0 },
    };
    let pass = two_callers(&rt, alloc, &store, pass, &lines).expect(&rt, "memory");
    same(&rt, &pass.entries().len(), &3);
    let (contents, _) = store.contents(pass).expect(&rt, "memory");
    same(
        &rt,
        &contents.queue(0).front().copied(),
        &Some(4_294_967_297),
    );
}
