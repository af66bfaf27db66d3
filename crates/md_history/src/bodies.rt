//! What transactions do.

ghost use Rattle.std.specs.Prelude.{◌≡◌, ℕ, List, [], None, IfOk, IfErr};
ghost use Rattle.md_history.specs.declared.acts.Act.{Act};
ghost use Rattle.md_history.specs.Calls.{BrokeOff};

use crate::calls::TxCalls;
use crate::stops::Stop;

/// What a transaction does: code that runs over the calls of any store.
///
/// A caller that was stopped may run it again.
pub trait Body {
    type Reply: Drop;

    /// The lists of acts that it does as a whole, each with the reply that it then gives.
    ghost did: { Self → List Act → Self.Reply → Type 0 };

    /// The lists of acts that it can make, as a whole or broken off.
    ghost makes: { Self → List Act → Type 0 };

    /// The numbers of maps and queues with which it may run.
    ghost fits: { Self → ℕ → ℕ → Type 0 };

    /// Runs it once over a transaction without acts. `Ok` has its reply, if no call was refused.
    /// `Err` has the stop of the call that was refused; the acts so far, followed by the refused
    /// operation with any reply that it could have had, are a list that the body can make.
    fn go<T: TxCalls>(&self, t: &mut T) -> Result<Self::Reply, Stop>
        requires none { T.acts t.old ≡ [] }
        requires going { T.stop t.old ≡ None }
        requires fits { fits self.now (T.maps (T.kept t.old)) (T.queues (T.kept t.old)) }
        ensures ok { IfOk result (λ r. (T.stop t.new ≡ None) × did self.now (T.acts t.new) r) }
        ensures err { IfErr result (λ e.
            BrokeOff (makes self.now) e [] (T.acts t.new) (T.stop t.new)) }
        ensures kept { T.kept t.new ≡ T.kept t.old };

    /// It can make what it did.
    ghost did_makes: { (b : Self) (acts : List Act) (r : Self.Reply)
        → did b acts r → makes b acts };
}
