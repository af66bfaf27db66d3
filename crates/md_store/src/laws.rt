//! What the end of a transaction tells whose calls were made one by one.

ghost use Rattle.md_store.specs.Transactions.{EndLaws};

/// A transaction that no call refused may become ready, and ends as an attempt of a body that makes
/// just its acts: they all take effect, as the last entry of the history that the pass has seen, or
/// it is lost with a conflict that shows why. One that is stopped leaves nothing. After one that is
/// left its pass is of the store still. The function does nothing.
pub fn transactions_end()
    ensures { EndLaws }
{}
