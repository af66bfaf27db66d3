//! An example of a bank's day: accounts and transfers that are made up.

ghost use Rattle.std.specs.Prelude.{◌≡◌, ◌≤◌, length, IfOk};
ghost use Rattle.example_bank.specs.Bank.{IsBank};

use crate::bank::{ACCOUNTS, Transfer};
use medley_transactions::{Contents, line_tag};
use std::alloc::{AllocError, Global};

/// A bank with accounts numbered from 0, each with the same balance, and with an empty journal.
/// Both numbers may be any. `AllocError` if memory runs out.
pub fn open_bank(alloc: Global, accounts: u32, balance: u64) -> Result<Contents, AllocError>
    ensures { IfOk result IsBank }
{
    let mut bank = Contents::empty(alloc, 1, 1)?;
    'accounts: for account in 0..accounts {
        bank.put(ACCOUNTS, account as u64, balance)?;
    }
    Ok(bank)
}

// The next random state: that of a linear congruential generator (Knuth, 1997, with MMIX's
// multiplier).
fn next_random(random: u64) -> u64 {
    random
        .wrapping_mul(6_364_136_223_846_793_005)
        .wrapping_add(1_442_695_040_888_963_407)
}

// A number below a bound, by the upper half of a random state.
fn below(bound: u32, random: u64) -> u64
    ensures { result ≤ bound }
{
    if bound == 0 {
        return 0;
    }
    random / 4_294_967_296 % bound as u64
}

/// Makes up `count` transfers of one teller between accounts numbered below `accounts`. The number
/// of each is its tag as the teller's line. Both accounts may be the same. Each transfer moves 1 to
/// 100, but every tenth asks for 2^64 - 1.
fn transfers_of(
    alloc: Global,
    teller: u32,
    accounts: u32,
    count: u32,
) -> Result<Vec<Transfer>, AllocError> {
    let mut transfers = Vec::with_capacity(alloc, count as usize)?;
    let mut random = teller as u64;
    for made in 0..count {
        random = next_random(random);
        let from = below(accounts, random);
        random = next_random(random);
        let to = below(accounts, random);
        random = next_random(random);
        let amount = if made % 10 == 9 {
            u64::MAX
        } else {
            1 + below(100, random)
        };
        transfers.push(Transfer {
            number: line_tag(teller, made + 1),
            from,
            to,
            amount,
        })?;
    }
    Ok(transfers)
}

/// Makes up `count` transfers for each of `tellers` tellers, between accounts numbered below
/// `accounts`. Each number may be any. `AllocError` if memory runs out.
pub fn make_transfers(
    alloc: Global,
    tellers: u32,
    accounts: u32,
    count: u32,
) -> Result<Vec<Vec<Transfer>>, AllocError>
    ensures { IfOk result (λ transfers. length transfers.items ≡ tellers) }
{
    let mut all = Vec::with_capacity(alloc, tellers as usize)?;
    'tellers: for teller in 0..tellers {
        all.push(transfers_of(alloc, teller + 1, accounts, count)?)?;
    }
    Ok(all)
}
