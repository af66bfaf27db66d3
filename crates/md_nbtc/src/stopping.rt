//! How a transaction is stopped, or left.

ghost use Rattle.std.specs.Prelude.{◌≡◌};
ghost use Rattle.md_nbtc_law.specs.Ending.{Stopped};
ghost use Rattle.md_nbtc_law.specs.Going.{IsUnderWay};
ghost use Rattle.md_nbtc.specs.State.{state};

use crate::txn::Txn;
use md_machine::{AttemptId, Theory};
use md_nbtc_sets::{abort_unready, withdraw};

impl<'a, T: Theory> Txn<'a, T> {
    /// Stops the transaction: it is aborted, and its descriptor is taken out of the words that it
    /// wrote, which then have their old values. Its nodes are given back. It has no effect, and the
    /// pass is free for another transaction. It takes no memory.
    ///
    /// It takes two steps, and one for each word that it wrote.
    pub fn stop(self)
        requires { IsUnderWay T.meaning (state self) }
        ensures { Stopped T.meaning (state self.entry) self.exit.0.now }
    {
        let Txn {
            pass,
            field,
            began,
            desc,
            serial,
            tag: _,
            sets,
            stop: _,
        } = self;
        let attempt = AttemptId { desc, serial };
        abort_unready(field, pass, attempt);
        withdraw(field, pass, attempt, &sets.slots, &sets.lots, &began);
    }

    /// Leaves the transaction as it stands, and the pass as it is. A drop does the same, but no
    /// clause then speaks of the pass. Its descriptor stands in the words that it wrote. A pass
    /// that meets it there aborts the transaction and takes the descriptor out. The lane's next
    /// `begin` settles the transaction, and takes the descriptor out of the words where it still
    /// stands. The nodes stay taken until the field is renewed. It takes no step.
    pub fn leave(self)
        ensures { self.exit.0.now ≡ self.entry.pass.now }
    {
        let Txn { pass, .. } = self;
        let _ = pass;
    }
}
