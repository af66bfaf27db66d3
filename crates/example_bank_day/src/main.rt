//! A day of the bank of the crate example_bank.
#![tactic(auto)]

use example_bank::{
    is_journal_right, make_transfers, moved_in, open_bank, sum_of, transfer_in_threads,
};
use medley_transactions::LinesByCaller;
use std::alloc::{AllocError, Global};
use std::process::ExitCode;
use std::thread::Threads;

const TELLERS: u32 = 4;

const TRANSFERS: u32 = 2_500;

const ACCOUNT_COUNT: u32 = 16;

// No account runs short: all transfers together move no more than this.
const BALANCE: u64 = 1_000_000;

// The results of the day. None of them depends on the order in which the transfers were made.
#[derive(Drop)]
struct Summary {
    before: u64,
    after: u64,
    moved: u64,
    refused: u64,
    is_right: bool,
}

// Makes all transfers of the day. `None` if the day can't be made.
fn run_day<R: Threads + Sync>(rt: &R, alloc: Global) -> Result<Option<Summary>, AllocError> {
    let start = open_bank(alloc, ACCOUNT_COUNT, BALANCE)?;
    let lists = make_transfers(alloc, TELLERS, ACCOUNT_COUNT, TRANSFERS)?;
    let Some(transfers) = LinesByCaller::new(lists) else {
        return Ok(None);
    };
    let Ok(many) = transfer_in_threads(rt, alloc, &start, &transfers) else {
        return Ok(None);
    };
    let moved = moved_in(&many);
    Ok(Some(Summary {
        before: sum_of(&start),
        after: sum_of(&many.contents),
        moved,
        refused: (transfers.total() as u64).saturating_sub(moved),
        is_right: is_journal_right(alloc, &many)?,
    }))
}

fn main(rt: HostRuntime) -> ExitCode {
    let Ok(Some(day)) = run_day(&rt, rt.alloc()) else {
        return ExitCode::FAILURE;
    };
    let _printed = println!(rt; "before {}", day.before);
    let _printed = println!(rt; "moved {} refused {}", day.moved, day.refused);
    let _printed = println!(rt; "after {}", day.after);
    let _printed = println!(rt; "journal is right: {}", day.is_right);
    ExitCode::SUCCESS
}
