//! Turns of callers, side by side.

ghost use Rattle.std.specs.Prelude.{◌≡◌, ◌<◌, ◌+◌, ◌-◌, ◌/◌, ◌^◌, ◌∷◌, ◌++◌, [], ℕ};
ghost use Rattle.std.specs.Prelude.{List, length, IfOk};
ghost use Rattle.std.specs.Thread.{IsSync};
ghost use Rattle.md_history.specs.Engine.{IsRising, Splits};
ghost use Rattle.md_history.specs.Front.{Front as View};
ghost use Rattle.md_many_attempts.specs.Lines.{AreFitting};
ghost use Rattle.md_many_attempts.specs.Meaning.{meaning_of};
ghost use Rattle.md_many_attempts.specs.Turns.{CanPlayTurn};
ghost use Rattle.md_many.specs.Rounds.{AreWithin, PlaysTurns, replies_in};

use md_history::{Body, Engine, pass_is_legal};
use md_many_attempts::{Gate, Lines, Played, ReplyList, Turn, play_batches};
use std::alloc::{AllocError, Global};
use std::thread;
use std::thread::Threads;

/// A pass, and the results of the turns on its lanes, caller by caller.
#[derive(Drop)]
pub struct Turns<P, T> {
    pub pass: P,
    pub played: Vec<Played<T>>,
}

/// What all turns of a round share.
pub struct Shared<'a, R, E, L, G> {
    pub rt: &'a R,
    pub alloc: Global,
    pub engine: &'a E,
    pub lines: &'a L,
    pub gate: &'a G,
    /// The most attempts of a turn.
    pub attempts: u32,
}

impl<R, E, L, G> Clone for Shared<'_, R, E, L, G> {
    fn clone(&self) -> Result<Self, AllocError> {
        Ok(*self)
    }
}

impl<R, E, L, G> Copy for Shared<'_, R, E, L, G> {}

// Plays a turn on the one lane of a pass.
fn play_turn<E: Engine, L: Lines, G: Gate, T: ReplyList<<L::B as Body>::Reply>>(
    alloc: Global,
    engine: &E,
    pass: E::Pass,
    lines: &L,
    gate: &G,
    turn: Turn,
) -> Result<Turns<E::Pass, T>, AllocError>
    requires of { E.of engine.now pass }
    requires turn { CanPlayTurn (meaning_of L.B.Body L.Lines lines.now) (E.start engine.now) turn }
    requires one { length (E.front pass).lanes ≡ 1 }
    ensures of { IfOk result (λ t. E.of engine.now t.pass) }
    ensures turns { IfOk result (λ t. (before : ℕ) → turn.caller ≡ before + 1
        → PlaysTurns (meaning_of L.B.Body L.Lines lines.now) (G.after_called gate.now) before (turn.done ∷ [])
        (E.front pass) (E.front t.pass) (replies_in T.listed t.played.items)) }
{
    let mut pass = pass;
    let mut played = Vec::with_capacity(alloc, 1)?;
    played.push(play_batches(alloc, engine, &mut pass, lines, turn, gate)?)?;
    Ok(Turns { pass, played })
}

// Takes the lanes and the results of two turns together, if memory ran out in neither.
fn join_turns<E, L, G, T>(
    engine: &E,
    lines: &L,
    gate: &G,
    first: Result<Turns<E::Pass, T>, AllocError>,
    second: Result<Turns<E::Pass, T>, AllocError>,
) -> Result<Turns<E::Pass, T>, AllocError>
where
    E: Engine,
    L: Lines,
    G: Gate,
    T: ReplyList<<L::B as Body>::Reply>,
    requires of { IfOk first (λ t. E.of engine.now t.pass) }
    requires of_other { IfOk second (λ t. E.of engine.now t.pass) }
    ensures of { IfOk result (λ t. E.of engine.now t.pass) }
    ensures turns { (old kept given : View) (before middle : ℕ) (low high : List ℕ)
        → Splits old kept given → IsRising old.lanes → middle ≡ before + length low
        → IfOk first (λ t. PlaysTurns (meaning_of L.B.Body L.Lines lines.now) (G.after_called gate.now)
        before low kept (E.front t.pass) (replies_in T.listed t.played.items))
        → IfOk second (λ t. PlaysTurns (meaning_of L.B.Body L.Lines lines.now) (G.after_called gate.now)
        middle high given (E.front t.pass) (replies_in T.listed t.played.items))
        → IfOk result (λ t. PlaysTurns (meaning_of L.B.Body L.Lines lines.now) (G.after_called gate.now)
        before (low ++ high) old (E.front t.pass) (replies_in T.listed t.played.items)) }
{
    let _ = lines;
    let _ = gate;
    let mut turns = first?;
    let Turns { pass, mut played } = second?;
    engine.join(&mut turns.pass, pass);
    pass_is_legal(engine, &turns.pass);
    turns.played.append(&mut played)?;
    Ok(turns)
}

// How many lines were done by each caller whose lane the pass keeps at a split, and by the others.
fn halves<'a, L: Lines>(lines: &L, before: u32, done: &'a [u32]) -> (&'a [u32], &'a [u32])
    requires { AreWithin (L.line_count lines.now) before done.now }
    ensures whole { done.now ≡ result.0.now ++ result.1.now }
    ensures low { length result.0.now ≡ length done.now - length done.now / 2 }
    ensures high { length result.1.now ≡ length done.now / 2 }
    ensures within_low { AreWithin (L.line_count lines.now) before result.0.now }
    ensures within_high { AreWithin (L.line_count lines.now)
        (before + length result.0.now) result.1.now }
{
    let _ = lines;
    let _ = before;
    done.split_at(done.len() - done.len() / 2)
}

/// Plays one turn of each of some callers, side by side in threads, each on a lane of its own. The
/// callers are those after the first `before`, as many as the pass has lanes. `done` has the number
/// of lines that each of them has played.
///
/// The call splits the pass in two, runs itself on both halves by `thread::join`, and joins them
/// again. So n callers take n - 1 splits, joins of passes and calls of `thread::join`. A turn is
/// played in batches of at most 128 attempts. It takes room for the replies of one batch at a
/// time, beside its list.
///
/// `AllocError` if memory runs out, here or in an attempt of the engine. Then the pass is lost.
#[cycle(turns)]
pub fn play_turns<R, E, L, G, T>(
    shared: Shared<'_, R, E, L, G>,
    pass: E::Pass,
    before: u32,
    done: &[u32],
) -> Result<Turns<E::Pass, T>, AllocError>
where
    R: Threads + Sync,
    E: Engine,
    L: Lines,
    L::B: Send,
    <L::B as Body>::Reply: Send,
    G: Gate + Sync,
    T: ReplyList<<L::B as Body>::Reply> + Send,
    requires of { E.of shared.engine.now pass }
    requires fits { AreFitting (meaning_of L.B.Body L.Lines shared.lines.now)
        (E.start shared.engine.now) }
    requires lanes { length done.now ≡ length (E.front pass).lanes }
    requires within { AreWithin (L.line_count shared.lines.now) before done.now }
    requires callers { before + length done.now < 2 ^ 32 }
    ensures of { IfOk result (λ t. E.of shared.entry.engine.now t.pass) }
    ensures turns { IfOk result (λ t. PlaysTurns (meaning_of L.B.Body L.Lines shared.entry.lines.now)
        (G.after_called shared.entry.gate.now) before done.now
        (E.front pass) (E.front t.pass) (replies_in T.listed t.played.items)) }
{
    let Shared {
        engine,
        lines,
        gate,
        ..
    } = shared;
    pass_is_legal(engine, &pass);
    let mut pass = pass;
    let Some(other) = engine.split(&mut pass) else {
        let turn = Turn {
            caller: before + 1,
            done: done[0],
            attempts: shared.attempts,
        };
        return play_turn(shared.alloc, engine, pass, lines, gate, turn);
    };
    let (low, high) = halves(lines, before, done);
    let middle = before + low.len() as u32;
    let (first, second) = thread::join(
        shared.rt,
        move || -> Result<Turns<E::Pass, T>, AllocError>
            requires sync { IsSync R.row × IsSync G.row }
            requires of { E.of shared.engine.now pass }
            requires fits { AreFitting (meaning_of L.B.Body L.Lines shared.lines.now)
                (E.start shared.engine.now) }
            requires lanes { length low.now ≡ length (E.front pass).lanes }
            requires within { AreWithin (L.line_count shared.lines.now) before low.now }
            requires callers { before + length low.now < 2 ^ 32 }
            ensures of { IfOk result (λ t. E.of shared.entry.engine.now t.pass) }
            ensures turns { IfOk result (λ t. PlaysTurns (meaning_of L.B.Body L.Lines shared.entry.lines.now)
                (G.after_called shared.entry.gate.now) before low.entry.now
                (E.front pass) (E.front t.pass) (replies_in T.listed t.played.items)) }
        { play_turns(shared, pass, before, low) },
        move || -> Result<Turns<E::Pass, T>, AllocError>
            requires sync { IsSync R.row × IsSync G.row }
            requires of { E.of shared.engine.now other }
            requires fits { AreFitting (meaning_of L.B.Body L.Lines shared.lines.now)
                (E.start shared.engine.now) }
            requires lanes { length high.now ≡ length (E.front other).lanes }
            requires within { AreWithin (L.line_count shared.lines.now) middle high.now }
            requires callers { middle + length high.now < 2 ^ 32 }
            ensures of { IfOk result (λ t. E.of shared.entry.engine.now t.pass) }
            ensures turns { IfOk result (λ t. PlaysTurns (meaning_of L.B.Body L.Lines shared.entry.lines.now)
                (G.after_called shared.entry.gate.now) middle high.entry.now
                (E.front other) (E.front t.pass) (replies_in T.listed t.played.items)) }
        { play_turns(shared, other, middle, high) },
    );
    join_turns(engine, lines, gate, first, second)
}
