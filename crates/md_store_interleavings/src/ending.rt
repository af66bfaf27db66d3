//! How a transaction ends, or is left.

ghost use Rattle.md_store_interleavings.specs.Acting.{IsActing};
ghost use Rattle.md_nbtc.specs.State.{state};
ghost use Rattle.md_store.specs.Store.{IsPassOf};

use md_history::Stop;
use md_nbtc::Txn;
use md_store::Store;
use md_store_law::StoreTheory;

/// Commits a transaction. `why` is the stop of the transaction, if it has stopped. Then it is ended
/// by `Txn::stop`, and the error is this stop. The error is `Stop::Conflict` if the transaction was
/// aborted (`Txn::commit`).
pub fn commit(txn: Txn<'_, StoreTheory>, why: Option<Stop>, store: &Store) -> Result<(), Stop>
    requires { IsActing store.now (state txn) why }
    ensures { IsPassOf store.now txn.exit.0.now }
{
    let _ = store;
    match why {
        None => match txn.commit() {
            Ok(()) => Ok(()),
            Err(shown) => Err(Stop::Conflict(shown)),
        },
        Some(why) => {
            txn.stop();
            Err(why)
        }
    }
}

/// Ends a transaction by `Txn::stop`.
pub fn stop(txn: Txn<'_, StoreTheory>, why: Option<Stop>, store: &Store)
    requires { IsActing store.now (state txn) why }
    ensures { IsPassOf store.now txn.exit.0.now }
{
    let _ = why;
    let _ = store;
    txn.stop();
}

/// Leaves a transaction as it stands, by `Txn::leave`.
pub fn leave(txn: Txn<'_, StoreTheory>, why: Option<Stop>, store: &Store)
    requires { IsActing store.now (state txn) why }
    ensures { IsPassOf store.now txn.exit.0.now }
{
    let _ = why;
    let _ = store;
    txn.leave();
}

/// Makes a transaction ready, leaves it undecided (`Txn::leave_ready`), and returns whether it
/// became ready. If it has stopped, with the stop `why`, it is ended by `Txn::stop`.
pub fn leave_ready(txn: Txn<'_, StoreTheory>, why: Option<Stop>, store: &Store) -> bool
    requires { IsActing store.now (state txn) why }
    ensures { IsPassOf store.now txn.exit.0.now }
{
    let _ = store;
    match why {
        None => match txn.leave_ready() {
            Ok(()) => true,
            Err(_) => false,
        },
        Some(_) => {
            txn.stop();
            false
        }
    }
}
