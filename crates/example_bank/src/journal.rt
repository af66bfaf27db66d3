//! Sums and checks of a bank after a run.

ghost use Rattle.std.specs.Prelude.{◌≡◌, ◌≢◌, ◌<◌, ◌+◌, ◌/◌, ◌%◌, ◌^◌, ◌↔◌, ℕ, List, [], ◌∷◌, ◌++◌};
ghost use Rattle.std.specs.Prelude.{length, drop, count_by, IsTrue, IfSome, IfOk, false};
ghost use Rattle.md_many_attempts.specs.ByCaller.{lists_in};
ghost use Rattle.example_bank.specs.Bank.{IsBank, bank_in, total};
ghost use Rattle.example_bank.specs.Journal.{is_moved, moved_among, moved_after, from_next};
ghost use Rattle.example_bank.specs.Journal.{left_of};
ghost use Rattle.example_bank.specs.Journal.{of_teller, IsJournalOf};

use crate::bank::{ACCOUNTS, JOURNAL, Outcome};
use medley_transactions::{Contents, Many};
use std::alloc::{AllocError, Global};

/// The sum of all accounts, modulo 2^64.
pub fn sum_of(contents: &Contents) -> u64
    requires { IsBank contents.now }
    ensures { result ≡ total (bank_in contents.now) % 2 ^ 64 }
{
    let mut sum = 0u64;
    for balance in contents.map(ACCOUNTS).values() {
        sum = sum.wrapping_add(*balance);
    }
    sum
}

fn is_moved(outcome: Outcome) -> bool
    ensures { result ≡ is_moved outcome }
{
    match outcome {
        Outcome::Moved => true,
        Outcome::Refused(_) => false,
    }
}

// How many transfers of a teller moved money.
fn moved_of(outcomes: &[Outcome]) -> usize
    ensures { result ≡ count_by is_moved outcomes.now }
{
    let mut moved = 0;
    for outcome in outcomes {
        if is_moved(*outcome) {
            moved += 1;
        }
    }
    moved
}

/// How many transfers moved money, modulo 2^64.
pub fn moved_in<P>(many: &Many<Outcome, P>) -> u64
    ensures { result ≡ moved_among (lists_in many.now.replies.items) % 2 ^ 64 }
{
    let mut moved = 0u64;
    for outcomes in &many.replies {
        moved = moved.wrapping_add(moved_of(outcomes) as u64);
    }
    moved
}

// How many lines of a teller come before the first that moved money, of those after so many.
fn next_moved(outcomes: &[Outcome], past: usize) -> Option<usize>
    ensures below { IfSome result (λ next. next < length outcomes.now) }
    ensures next { (teller : ℕ) → moved_after teller past (drop past outcomes.now)
        ≡ from_next teller outcomes.now result }
{
    for next in past..outcomes.len() {
        if is_moved(outcomes[next]) {
            return Some(next);
        }
    }
    None
}

// Goes past the next line of a teller that moved money, if the number is its tag, and returns
// whether it is. `past` has how many lines of each teller are past.
fn go_past(replies: &[Vec<Outcome>], past: &mut [usize], number: u64) -> bool
    requires { length past.old ≡ length replies.now }
    ensures is { IsTrue result → (teller : ℕ) → left_of (lists_in replies.now) past.old teller
        ≡ of_teller teller (number ∷ []) ++ left_of (lists_in replies.now) past.new teller }
    ensures other { result ≡ false → (rest : List ℕ)
        → left_of (lists_in replies.now) past.old (number / 2 ^ 32) ≢ number ∷ rest }
{
    let teller = number / 4_294_967_296;
    if teller == 0 || teller > replies.len() as u64 {
        return false;
    }
    let place = teller as usize - 1;
    let Some(next) = next_moved(&replies[place], past[place]) else {
        return false;
    };
    if next as u64 + 1 != number % 4_294_967_296 {
        return false;
    }
    past[place] = next + 1;
    true
}

// Whether no line that isn't past moved money.
fn is_none_left(replies: &[Vec<Outcome>], past: &[usize]) -> bool
    requires { length past.now ≡ length replies.now }
    ensures { IsTrue result ↔ ((teller : ℕ) → left_of (lists_in replies.now) past.now teller ≡ []) }
{
    for place in 0..replies.len() {
        if next_moved(&replies[place], past[place]).is_some() {
            return false;
        }
    }
    true
}

/// Whether the journal has the number of each transfer that moved money, once, and no other number,
/// and has the numbers of each teller in the teller's order. The journal was empty at first, and
/// each number is the tag of the transfer's line. `AllocError` if there is no memory for a number
/// for each teller.
pub fn is_journal_right<P>(alloc: Global, many: &Many<Outcome, P>) -> Result<bool, AllocError>
    requires { IsBank many.now.contents }
    ensures { IfOk result (λ right. IsTrue right
        ↔ IsJournalOf (lists_in many.now.replies.items) (bank_in many.now.contents).journal) }
{
    let mut past = vec![in alloc; 0; many.replies.len()]?;
    for number in many.contents.queue(JOURNAL) {
        if !go_past(&many.replies, &mut past, *number) {
            return Ok(false);
        }
    }
    Ok(is_none_left(&many.replies, &past))
}
