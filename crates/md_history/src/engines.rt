//! What every store offers.

ghost use Rattle.std.specs.Prelude.{◌≡◌, ◌≤◌, ◌+◌, ℕ, List, length, IfOk};
ghost use Rattle.md_history.specs.declared.stops.Stop.{Stop};
ghost use Rattle.md_history.specs.State.{State};
ghost use Rattle.md_history.specs.Counts.{IsSmall};
ghost use Rattle.md_history.specs.Front.{Front as View};
ghost use Rattle.md_history.specs.Attempt.{CountsAttempt, IfStopped, IsAtomic};
ghost use Rattle.md_history.specs.Engine.{Limits, bounds_in, IsFrontFrom, empty_front, AreApart};
ghost use Rattle.md_history.specs.Engine.{IsSplit, Joins, HasRoom, IsNoConflict};
ghost use Rattle.md_history.specs.Engine.{HasEnded, IsFirstPass};

use crate::bodies::Body;
use crate::contents::Contents;
use crate::fronts::Front;
use crate::stops::{Attempt, Stop};
use std::alloc::AllocError;

/// A store that runs bodies as transactions. A caller uses it by a pass, which holds some of its
/// lanes. A lane is one caller's share of the store: an attempt is made on one lane of the pass.
///
/// The state of an engine is the replay of its committed entries from the state in which it starts.
pub trait Engine: Sized + Sync + Drop {
    /// What lets a caller use the engine.
    type Pass: Send + Drop;

    /// What it contained when it was opened or renewed.
    ghost start: { Self → State };

    /// All its lanes, rising.
    ghost lanes: { Self → List ℕ };

    /// What a transaction may read and write, what each lane has, and for how much a renewal has
    /// room.
    ghost limits: { Self → Limits };

    /// What a pass holds and has seen.
    ghost front: { Self.Pass → View };

    /// How many attempts its lanes have begun since the engine was opened or renewed.
    ghost begun: { Self.Pass → ℕ };

    /// The pass is of this engine.
    ghost of: { Self → Self.Pass → Type 0 };

    /// The pass holds all lanes. Since the engine was opened or renewed, no attempt was begun and no
    /// lane given away.
    ghost fresh: { Self → Self.Pass → Type 0 };

    /// The stops with which its attempts may end.
    ghost may_stop: { Self → Stop → Type 0 };

    /// Gives the last half of the lanes, rounded down, to a new pass, which has seen what the old
    /// one has. `None` exactly if the pass holds one lane. It takes no memory.
    fn split(&self, pass: &mut Self::Pass) -> Option<Self::Pass>
        requires { of self.now pass.old }
        ensures { IsSplit front begun (of self.now) pass.old pass.new result };

    /// Runs a body once, as a transaction with a tag. It begins one attempt, or none if it first
    /// meets a limit or runs out of memory.
    ///
    /// It takes effect as a whole, as the last entry of the history, or not at all. A pass that
    /// holds all lanes meets no conflict. If it is also fresh, each lane has a try, and all that
    /// the body can do from the engine's start is within the engine's limits, then it meets no
    /// limit either.
    fn attempt<B: Body>(&self, pass: &mut Self::Pass, tag: u64, body: &B) -> Attempt<B::Reply>
        requires of { of self.now pass.old }
        requires fits { B.fits body.now
            (length (start self.now).maps) (length (start self.now).queues) }
        ensures atomic { IsAtomic (B.did body.now) tag (start self.now) result
            (front pass.old) (front pass.new) }
        ensures of { of self.now pass.new }
        ensures begun { CountsAttempt result (begun pass.old) (begun pass.new) }
        ensures may_stop { IfStopped result (may_stop self.now) }
        ensures alone { (front pass.old).lanes ≡ lanes self.now → IfStopped result IsNoConflict }
        ensures small { fresh self.now pass.old → 1 ≤ (limits self.now).tries
            → IsSmall (bounds_in (limits self.now)) (B.makes body.now) (start self.now)
            → IfStopped result (λ s. s ≡ Stop.NoMemory) };

    /// Takes the lanes of another pass of the engine, and what it has seen. Two passes of an engine
    /// share no lane. It takes no memory.
    fn join(&self, pass: &mut Self::Pass, other: Self::Pass)
        requires of { of self.now pass.old }
        requires of_other { of self.now other }
        ensures joined { AreApart (front pass.old).lanes (front other).lanes
            → Joins (front pass.old) (front other) (front pass.new) }
        ensures begun { AreApart (front pass.old).lanes (front other).lanes
            → begun pass.new ≡ begun pass.old + begun other }
        ensures of { of self.now pass.new };

    /// Ends the engine, and opens a new one on its contents, with all nodes and tries again.
    /// Returns the new engine, its pass, and the front of the old pass with every fate decided.
    /// `AllocError` if memory runs out; then the engine has ended, and its contents are lost.
    fn renew(self, pass: Self::Pass) -> Result<(Self, Self::Pass, Front<Self::Pass>), AllocError>
        requires of { of self pass }
        requires all { (front pass).lanes ≡ lanes self }
        requires room { HasRoom (start self) (limits self).room (front pass) }
        ensures ended { IfOk result (λ r.
            HasEnded (start self) (front pass) (front r.2) (start r.0)) }
        ensures lanes { IfOk result (λ r. lanes r.0 ≡ lanes self) }
        ensures limits { IfOk result (λ r. limits r.0 ≡ limits self) }
        ensures may_stop { IfOk result (λ r. (s : Stop) → may_stop r.0 s → may_stop self s) }
        ensures first { IfOk result (λ r. IsFirstPass (of r.0 r.1) (fresh r.0 r.1) (begun r.1)) };

    /// Ends the engine, and returns its contents and the front of its last pass with every fate
    /// decided. `AllocError` if memory runs out; then the engine has ended, and its contents are
    /// lost.
    fn contents(self, pass: Self::Pass) -> Result<(Contents, Front<Self::Pass>), AllocError>
        requires of { of self pass }
        requires all { (front pass).lanes ≡ lanes self }
        ensures { IfOk result (λ r. HasEnded (start self) (front pass) (front r.1) r.0) };

    /// The front of a pass of an engine is legal from its start, and its lanes are the engine's.
    ghost of_is: { (e : Self) (p : Self.Pass) → of e p
        → IsFrontFrom (start e) (lanes e) (front p) };

    /// A fresh pass holds all lanes, has seen nothing, and has begun no attempt.
    ghost fresh_is: { (e : Self) (p : Self.Pass) → of e p → fresh e p
        → (front p ≡ empty_front (lanes e)) × (begun p ≡ 0) };
}

/// Lends the engine's law on its passes to a proof. It does nothing when it runs.
pub fn pass_is_legal<E: Engine>(engine: &E, pass: &E::Pass)
    requires { E.of engine.now pass.now }
    ensures { IsFrontFrom (E.start engine.now) (E.lanes engine.now) (E.front pass.now) }
{}

/// Lends the engine's law on fresh passes to a proof: such a pass has seen nothing, holds all
/// lanes, and has begun no attempt. It does nothing when it runs.
pub fn fresh_is_empty<E: Engine>(engine: &E, pass: &E::Pass)
    requires of { E.of engine.now pass.now }
    requires fresh { E.fresh engine.now pass.now }
    ensures front { E.front pass.now ≡ empty_front (E.lanes engine.now) }
    ensures begun { E.begun pass.now ≡ 0 }
{}
