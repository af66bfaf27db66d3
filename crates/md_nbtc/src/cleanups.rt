//! What a transaction puts off until it has committed.

ghost use Rattle.std.specs.Prelude.{◌≡◌, ℕ, true};
ghost use Rattle.md_nbtc_law.specs.Calls.{Keeps};
ghost use Rattle.md_nbtc_law.specs.Cleaning.{IsWrittenFor, cleanup_node, with_cleanup_kept};
ghost use Rattle.md_nbtc_law.specs.Seeing.{KeepsGiven};
ghost use Rattle.md_nbtc.specs.State.{state};

use crate::txn::Txn;
use md_machine::Theory;
use md_nbtc_law::Cleanup;

// The node by whose next word a cleanup goes.
fn node_of(cleanup: Cleanup) -> u32
    ensures { result ≡ cleanup_node cleanup }
{
    match cleanup {
        Cleanup::Unlink { prev: _, node } => node,
        Cleanup::MoveTail {
            tail: _,
            from,
            to: _,
        } => from,
    }
}

impl<'a, T: Theory> Txn<'a, T> {
    /// Keeps a cleanup until the transaction has committed. It is kept in the slot of the next word
    /// of its node: `node` for an `Unlink`, and `from` for a `MoveTail`. An operation is begun, and
    /// the transaction has written that word. The new value of the word is marked for an `Unlink`,
    /// and names `to` for a `MoveTail`. The cleanup replaces one that was kept in the slot.
    ///
    /// Only `Ready::decide` makes it: not after an abort, and not if another pass commits the
    /// transaction after it was left. The call takes no step, and searches at most 128 slots.
    pub fn later(&mut self, cleanup: Cleanup)
        requires operates { (state self.old).hand.operating ≡ true }
        requires written { IsWrittenFor (state self.old) cleanup }
        ensures pass { self.new.pass.ghost_name ≡ self.old.pass.ghost_name }
        ensures on { Keeps T.meaning (state self.old) (state self.new) cleanup }
        ensures kept { state self.new
            ≡ record (state self.old) { slots = with_cleanup_kept (state self.old) cleanup } }
        ensures given { (other : ℕ) → KeepsGiven (state self.old) (state self.new) other }
    {
        let word = self.field.shape().node_next(node_of(cleanup));
        self.sets.slots.keep(word, cleanup);
    }
}
