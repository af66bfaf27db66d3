//! A bank: accounts in a map, a journal in a queue, and transfers between accounts.

ghost use Rattle.std.specs.Prelude.{◌≡◌, ◌<◌, None};
ghost use Rattle.md_history.specs.Playing.{PlaysPart};
ghost use Rattle.example_bank.specs.Bank.{new_balances, write_all};

use medley_transactions::{Body, LawfulBody, Stop, TxCalls};

/// The map of the accounts, from an account's number to its balance.
pub const ACCOUNTS: u32 = 0;

/// The queue of the journal. It has the numbers of the transfers that moved money, in their order.
pub const JOURNAL: u32 = 0;

/// An amount to be moved from one account to another, and a number, which the journal gets if money
/// moves. Each may be any. As a body a transfer needs a store with at least one map and one queue.
/// It reads at most 10 words, writes at most 20 and takes at most 5 nodes.
#[derive(Clone, Copy, Debug, PartialEq, Eq)]
pub struct Transfer {
    pub number: u64,
    pub from: u64,
    pub to: u64,
    pub amount: u64,
}

/// Why a transfer moves nothing.
#[derive(Clone, Copy, Debug, PartialEq, Eq)]
pub enum Refusal {
    /// One of the accounts isn't there.
    NoAccount,
    /// Both accounts are the same.
    SameAccount,
    /// The first account has less than the amount.
    Short,
    /// The second account would have 2^64 or more.
    Full,
}

/// The result of a transfer.
#[derive(Clone, Copy, Debug, PartialEq, Eq)]
pub enum Outcome {
    /// The amount was moved, and the journal has the transfer's number.
    Moved,
    /// Nothing was changed.
    Refused(Refusal),
}

impl Transfer {
    // The balances that both accounts get, from those that they have.
    fn new_balances(&self, from: Option<u64>, to: Option<u64>) -> Result<(u64, u64), Refusal>
        ensures { result ≡ new_balances self.now from to }
    {
        let Some(from) = from else {
            return Err(Refusal::NoAccount);
        };
        let Some(to) = to else {
            return Err(Refusal::NoAccount);
        };
        if self.from == self.to {
            return Err(Refusal::SameAccount);
        }
        if from < self.amount {
            return Err(Refusal::Short);
        }
        let Some(sum) = to.checked_add(self.amount) else {
            return Err(Refusal::Full);
        };
        Ok((from - self.amount, sum))
    }
}

// Writes both balances, and the transfer's number into the journal.
fn write_all<T: TxCalls>(
    t: &mut T,
    transfer: &Transfer,
    from: u64,
    to: u64,
) -> Result<Outcome, Stop>
    requires going { T.stop t.old ≡ None }
    requires accounts { ACCOUNTS < T.maps (T.kept t.old) }
    requires journal { JOURNAL < T.queues (T.kept t.old) }
    ensures plays { PlaysPart (write_all transfer.now from to) result T.acts T.stop t.old t.new }
    ensures kept { T.kept t.new ≡ T.kept t.old }
{
    t.put(ACCOUNTS, transfer.from, from)?;
    t.put(ACCOUNTS, transfer.to, to)?;
    t.enqueue(JOURNAL, transfer.number)?;
    Ok(Outcome::Moved)
}

impl Body for Transfer {
    ghost use Rattle.std.specs.Prelude.{◌<◌};
    ghost use Rattle.md_history.specs.Script.{Did, Follows};
    ghost use Rattle.example_bank.specs.Bank.{script_of};
    ghost use Rattle.example_bank.specs.declared.bank.TheConstants.{ACCOUNTS, JOURNAL};

    type Reply = Outcome;

    ghost did = { λ t acts r. Did (script_of t) acts r };

    ghost makes = { λ t acts. Follows (script_of t) acts };

    ghost fits = { λ t maps queues. (ACCOUNTS < maps) × (JOURNAL < queues) };

    fn go<T: TxCalls>(&self, t: &mut T) -> Result<Outcome, Stop> {
        let from = t.get(ACCOUNTS, self.from)?;
        let to = t.get(ACCOUNTS, self.to)?;
        match self.new_balances(from, to) {
            Ok((from, to)) => write_all(t, self, from, to),
            Err(why) => Ok(Outcome::Refused(why)),
        }
    }

    ghost did_makes = { λ t acts r did. did.follows };
}

// A transfer needs at most one node more, for its record in the journal.
impl LawfulBody for Transfer {
    ghost use Rattle.example_bank.specs.Bank.{IsBank, transfer_bounds};

    ghost good = { λ opening s. IsBank opening };

    ghost cost = { transfer_bounds };

    ghost growth = { 1 };
}
