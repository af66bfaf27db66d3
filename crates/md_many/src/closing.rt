//! Rounds of callers whose engine is closed at their end.

ghost use Rattle.std.specs.Prelude.{◌≤◌, ◌+◌, [], ℕ, length, map, IfOk, OnOk};
ghost use Rattle.md_many_attempts.specs.ByCaller.{lines_of};
ghost use Rattle.md_many_attempts.specs.Meaning.{meaning_of};
ghost use Rattle.md_many.specs.Tags.{IsInterleaving};
ghost use Rattle.md_many.specs.Laws.{AreLawful, CanKeepAll, law_of};
ghost use Rattle.md_many.specs.Closed.{IsClosed, HoldsAllLanes};
ghost use Rattle.md_many.specs.Course.{CanPlay};
ghost use Rattle.md_many.specs.Played.{EachLineOnce, IsToldOfEach, committed_of, tags_of};

use crate::keepers::Keeper;
use crate::laws::LawfulLines;
use crate::playing::Play;
use crate::rounds::play_open_rounds;
use md_history::{Body, Contents, Engine, Front};
use md_many_attempts::Gate;
use std::alloc::AllocError;
use std::thread::Threads;

/// The result of rounds, beside the replies: the contents, and the fronts of the engines in order,
/// one for each renewal and one for the end. A front takes no bytes, and is for contracts.
#[derive(Drop)]
pub struct Rounds<P> {
    pub contents: Contents,
    pub fronts: Vec<Front<P>>,
}

/// Rounds that have ended, whose engine is still open: the engine with the pass of all its lanes,
/// and the fronts of the engines before it. All lines are played, so the replies can be told while
/// `close` reads the contents off.
#[derive(Drop)]
pub struct OpenRounds<E: Engine> {
    pub engine: E,
    pub pass: E::Pass,
    pub fronts: Vec<Front<E::Pass>>,
}

impl<E: Engine> OpenRounds<E> {
    /// Closes the engine, and returns its contents and all fronts. `AllocError` if memory runs out;
    /// then the contents are lost.
    pub fn close(self) -> Result<Rounds<E::Pass>, AllocError>
        requires { HoldsAllLanes E.Engine self.engine self.pass }
        ensures { IfOk result (λ r. IsClosed (E.start self.engine)
            (map E.front self.fronts.items) (E.front self.pass)
            (map E.front r.fronts.items) r.contents) }
    {
        let OpenRounds {
            engine,
            pass,
            mut fronts,
        } = self;
        let (contents, front) = engine.contents(pass)?;
        fronts.push(front)?;
        Ok(Rounds { contents, fronts })
    }
}

/// Plays all lines of all callers over an engine, in rounds, and closes the engine:
/// `play_open_rounds`, which says what a round is and what a call costs, and `OpenRounds::close`.
///
/// `AllocError` if memory runs out, here, at the keeper or in an attempt of the engine. Then the
/// engine has ended, and its contents are lost.
pub fn play_rounds<R, E, L, G, K>(
    play: &Play<'_, R, L, G>,
    engine: E,
    pass: E::Pass,
    keeper: &mut K,
) -> Result<Rounds<E::Pass>, AllocError>
where
    R: Threads + Sync,
    E: Engine,
    L: LawfulLines,
    L::B: Send,
    <L::B as Body>::Reply: Send,
    G: Gate + Sync,
    K: Keeper<<L::B as Body>::Reply>,
    K::List: Send,
    requires engine { CanPlay E.Engine (meaning_of L.B.Body L.Lines play.now.lines.now)
        (law_of L.LawfulLines.own play.now.lines.now) engine pass }
    requires laws { AreLawful (meaning_of L.B.Body L.Lines play.now.lines.now)
        (law_of L.LawfulLines.own play.now.lines.now) }
    requires keeper { CanKeepAll (L.suits play.now.lines.now) (K.can_keep keeper.old) }
    requires empty { (caller : ℕ) → K.keeps keeper.old caller [] }
    ensures each_line_once { IfOk result (λ r. EachLineOnce
        (meaning_of L.B.Body L.Lines play.now.lines.now) (K.keeps keeper.new)
        (L.good play.now.lines.now) (L.opening play.now.lines.now)
        (map E.front r.fronts.items) r.contents) }
    ensures gate { OnOk result (IsToldOfEach (L.line_count play.now.lines.now)
        (G.after_called play.now.gate.now)) }
    ensures interleaving { IfOk result (λ r. IsInterleaving (L.line_count play.now.lines.now)
        (tags_of (committed_of (map E.front r.fronts.items)))) }
    ensures fronts { IfOk result (λ r. length r.fronts.items
        ≤ lines_of (L.line_count play.now.lines.now) (L.caller_count play.now.lines.now) + 1) }
{
    let rounds = play_open_rounds(play, engine, pass, keeper)?;
    rounds.close()
}
