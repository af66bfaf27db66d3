//! Transfers of tellers, made in threads over a concurrent store of their own.

ghost use Rattle.std.specs.Prelude.{◌≡◌, ◌≤◌, ◌<◌, ◌+◌, Err, length, map, sum_by, IfErr, IfOk};
ghost use Rattle.md_history.specs.Engine.{needed};
ghost use Rattle.md_many_attempts.specs.ByCaller.{lists_in};
ghost use Rattle.md_store.specs.Store.{front_in};
ghost use Rattle.md_words.specs.Layout.{HasNumbers};
ghost use Rattle.example_bank.specs.Bank.{IsBank};
ghost use Rattle.example_bank.specs.Made.{AreMade};

use crate::bank::{Outcome, Transfer};
use crate::playing::transfer_all;
use medley_transactions::{Contents, Lines, LinesByCaller, Many, Shape, Store, StorePass, needed};
use std::alloc::Global;
use std::thread::Threads;

/// The most tellers.
pub const MAX_TELLERS: u32 = 64;

/// The most nodes that the contents of a bank may need: one for each account, one for each record
/// of the journal, and one more. Each transfer may add a record.
pub const MAX_NEEDED: u32 = 2_000_000;

// The nodes and the attempts of each lane, until the store is renewed.
const NODES: u32 = 4_096;

const TRIES: u32 = 4_096;

// The buckets of the map of accounts.
const BUCKETS: u32 = 1_024;

/// Why no transfers were made.
#[derive(Clone, Copy, Debug, PartialEq, Eq)]
pub enum BankFault {
    /// With a record for each transfer, the contents need more than `MAX_NEEDED` nodes.
    TooLarge,
    /// Memory ran out.
    NoMemory,
}

// The shape of a bank's store, with a lane for each teller.
fn shape_of(tellers: u32, base: u32) -> Shape
    requires tellers { (1 ≤ tellers) × (tellers ≤ MAX_TELLERS) }
    requires base { base ≤ MAX_NEEDED }
    ensures { HasNumbers result tellers NODES base TRIES 1 BUCKETS 1 }
{
    Shape::new(tellers, NODES, base, TRIES, 1, BUCKETS, 1).unwrap()
}

/// Makes all transfers of all tellers over a concurrent store that begins with these contents,
/// which are a bank. There are 1 to `MAX_TELLERS` tellers. Each has a thread, and makes its
/// transfers one after another. After a conflict a transfer is made again.
///
/// `Ok` has the outcome of each transfer, by teller and line, and the contents of the bank at the
/// end. `TooLarge` exactly if the nodes that the contents need, with one for each transfer, are
/// more than `MAX_NEEDED`. `NoMemory` if memory runs out.
///
/// A lane of the store has 4,096 nodes and 4,096 attempts until the store is renewed.
pub fn transfer_in_threads<R: Threads + Sync>(
    rt: &R,
    alloc: Global,
    start: &Contents,
    transfers: &LinesByCaller<Transfer>,
) -> Result<Many<Outcome, StorePass>, BankFault>
    requires bank { IsBank start.now }
    requires tellers { (1 ≤ length transfers.now) × (length transfers.now ≤ MAX_TELLERS) }
    ensures made { IfOk result (λ m. AreMade transfers.now start.now
        (map front_in m.fronts.items) (lists_in m.replies.items) m.contents) }
    ensures too_large { MAX_NEEDED < needed start.now + sum_by length transfers.now
        → result ≡ Err BankFault.TooLarge }
    ensures fits { needed start.now + sum_by length transfers.now ≤ MAX_NEEDED
        → IfErr result (λ fault. fault ≡ BankFault.NoMemory) }
{
    let base = needed(start);
    if base.saturating_add(transfers.total() as u64) > MAX_NEEDED as u64 {
        return Err(BankFault::TooLarge);
    }
    let shape = shape_of(transfers.callers(), base as u32);
    let Ok((store, pass)) = Store::open(alloc, shape, start) else {
        return Err(BankFault::NoMemory);
    };
    match transfer_all(rt, alloc, store, pass, transfers, TRIES) {
        Ok(many) => Ok(many),
        Err(_) => Err(BankFault::NoMemory),
    }
}
