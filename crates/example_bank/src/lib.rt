//! Transfers between the accounts of a bank, made in threads as transactions.
#![tactic(auto)]

mod bank;
mod day;
mod journal;
mod playing;
mod threads;

pub use bank::{ACCOUNTS, JOURNAL, Outcome, Refusal, Transfer};
pub use day::{make_transfers, open_bank};
pub use journal::{is_journal_right, moved_in, sum_of};
pub use playing::transfer_all;
pub use threads::{BankFault, MAX_NEEDED, MAX_TELLERS, transfer_in_threads};
