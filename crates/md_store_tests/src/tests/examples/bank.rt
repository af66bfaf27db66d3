//! What no clause says: that transfers are made, alone and in threads.

ghost use Rattle.std.specs.Prelude.{◌≡◌, ◌≤◌, length};
ghost use Rattle.md_history.specs.Plain.{IsPassOf};
ghost use Rattle.example_bank.specs.Bank.{IsBank};
ghost use Rattle.example_bank.specs.declared.threads.TheConstants.{MAX_TELLERS};

use crate::tests::same;
use example_bank::{
    ACCOUNTS, JOURNAL, Outcome, Refusal, Transfer, is_journal_right, make_transfers, moved_in,
    open_bank, sum_of, transfer_in_threads,
};
use medley_transactions::{
    Attempt, Contents, Engine, LinesByCaller, Many, PlainPass, PlainStore, StorePass,
};
use std::alloc::AllocGlobal;
use std::process::Abort;
use std::thread::Threads;

const FULL: u64 = u64::MAX - 4;

// A bank with 10 in account 1, and 2^64 - 5 in account 2.
fn two_accounts<R: Abort + AllocGlobal>(rt: &R) -> Contents
    ensures { IsBank result }
{
    let mut start = open_bank(rt.alloc(), 0, 0).expect(rt, "memory");
    start.put(ACCOUNTS, 1, 10).expect(rt, "memory");
    start.put(ACCOUNTS, 2, FULL).expect(rt, "memory");
    start
}

// Makes a transfer, which comes to this.
fn comes_to(
    rt: &impl Abort,
    store: &PlainStore,
    pass: &mut PlainPass,
    transfer: Transfer,
    outcome: Outcome,
)
    requires of { IsPassOf store.now pass.old }
    requires bank { IsBank store.now }
    ensures { IsPassOf store.now pass.new }
{
    let attempt = store.attempt(pass, 0, &transfer);
    same(rt, &attempt, &Attempt::Committed(outcome));
}

fn transfer(number: u64, from: u64, to: u64, amount: u64) -> Transfer {
    Transfer {
        number,
        from,
        to,
        amount,
    }
}

// Makes transfers one after another, and compares what each comes to.
fn transfer_eight(rt: &impl Abort, store: &PlainStore, pass: &mut PlainPass)
    requires of { IsPassOf store.now pass.old }
    requires bank { IsBank store.now }
    ensures { IsPassOf store.now pass.new }
{
    let (full, short) = (
        Outcome::Refused(Refusal::Full),
        Outcome::Refused(Refusal::Short),
    );
    let none = Outcome::Refused(Refusal::NoAccount);
    let same = Outcome::Refused(Refusal::SameAccount);
    comes_to(rt, store, pass, transfer(0, 1, 2, 4), Outcome::Moved);
    comes_to(rt, store, pass, transfer(1, 1, 2, 1), full);
    comes_to(rt, store, pass, transfer(2, 1, 2, 7), short);
    comes_to(rt, store, pass, transfer(3, 2, 1, 3), Outcome::Moved);
    comes_to(rt, store, pass, transfer(4, 1, 1, 1), same);
    comes_to(rt, store, pass, transfer(5, 1, 3, 1), none);
    comes_to(rt, store, pass, transfer(6, 3, 1, 1), none);
    comes_to(rt, store, pass, transfer(7, 1, 2, 0), Outcome::Moved);
}

// What the transfers that moved money leave.
fn has_moved(rt: &impl Abort, contents: &Contents)
    requires { IsBank contents.now }
{
    let accounts = [contents.get(ACCOUNTS, 1), contents.get(ACCOUNTS, 2)];
    same(rt, &accounts, &[Some(9), Some(u64::MAX - 3)]);
    let journal = contents.queue(JOURNAL);
    same(rt, &journal.len(), &3);
    for (number, want) in journal.iter().zip([0, 3, 7]) {
        same(rt, number, &want);
    }
}

// Transfers one after another between account 1, which has 10, and account 2, which has 2^64 - 5.
#[test]
fn each_outcome(rt: HostRuntime) {
    let (store, mut pass) = PlainStore::open(two_accounts(&rt));
    transfer_eight(&rt, &store, &mut pass);
    let (contents, _) = store.contents(pass).expect(&rt, "memory");
    has_moved(&rt, &contents);
}

// Makes transfers in threads, and says of them only that a bank is left.
fn made_in_threads<R: Abort + AllocGlobal + Threads + Sync>(
    rt: &R,
    start: &Contents,
    made: &LinesByCaller<Transfer>,
) -> Many<Outcome, StorePass>
    requires bank { IsBank start.now }
    requires tellers { (1 ≤ length made.now) × (length made.now ≤ MAX_TELLERS) }
    ensures { IsBank result.contents }
{
    transfer_in_threads(rt, rt.alloc(), start, made).expect(rt, "memory")
}

// The sum is this, the journal has what was moved, and some transfers were refused.
fn is_right<R: Abort + AllocGlobal>(rt: &R, many: &Many<Outcome, StorePass>, sum: u64, total: u64)
    requires { IsBank many.now.contents }
{
    same(rt, &sum_of(&many.contents), &sum);
    let right = is_journal_right(rt.alloc(), many).expect(rt, "memory");
    let moved = moved_in(many);
    same(rt, &(right, moved > 0, moved < total), &(true, true, true));
}

// So many tellers make transfers between so many accounts of 60 each.
fn transfer_between<R: Abort + AllocGlobal + Threads + Sync>(rt: &R, tellers: u32, accounts: u32)
    requires { (1 ≤ tellers) × (tellers ≤ MAX_TELLERS) }
{
    let alloc = rt.alloc();
    let start = open_bank(alloc, accounts, 60).expect(rt, "memory");
    let lists = make_transfers(alloc, tellers, accounts, 1_000).expect(rt, "memory");
    let made = LinesByCaller::new(lists).expect(rt, "few transfers");
    let many = made_in_threads(rt, &start, &made);
    is_right(rt, &many, accounts as u64 * 60, made.total() as u64);
}

// Tellers make transfers between so few accounts with so little that what is refused depends on the
// order in which threads come. The sum stays, and the journal has what was moved.
#[test]
fn poor_accounts(rt: HostRuntime) {
    transfer_between(&rt, 1, 2);
    transfer_between(&rt, 2, 2);
    transfer_between(&rt, 4, 3);
    transfer_between(&rt, 8, 4);
}
