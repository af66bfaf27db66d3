//! Made scripts, and the line that sums them up.

ghost use Rattle.std.specs.Prelude.{◌≤◌};
ghost use Rattle.md_orders.specs.Records.{max_records};
ghost use Rattle.md_orders.specs.declared.generator.TheConstants.{MAX_MADE_CALLERS};

use crate::tests::{AMPLE, expect_with};
use md_book::{BookReply, Command, LEVELS, MAPS};
use md_history::{Attempt, Contents, Engine, PlainStore};
use md_orders::{Scripts, make};
use md_program::Status;
use std::alloc::{AllocError, AllocGlobal, Global};
use std::process::Abort;
use std::test::Fail;
use std::thread::Threads;

// What commands came to.
#[derive(Drop)]
struct Sums {
    placed: u64,
    cancelled: u64,
    filled: u64,
}

impl Sums {
    // With one command more.
    fn add(&mut self, command: &Command, reply: &BookReply) {
        match (command, reply) {
            (Command::Place { quantity, .. }, _) => {
                self.placed = self.placed.saturating_add(u64::from(*quantity));
            }
            (_, BookReply::Cancelled(gone)) => {
                self.cancelled = self.cancelled.saturating_add(u64::from(*gone));
            }
            (_, BookReply::Filled { taken, .. }) => {
                self.filled = self.filled.saturating_add(u64::from(*taken));
            }
            _ => {}
        }
    }
}

// What scripts come to that one thread runs over a store for one thread, where the callers take
// turns.
fn sums_in_turn(
    alloc: Global,
    scripts: &Scripts,
    lines: u32,
    callers: u32,
) -> Result<Sums, AllocError>
    requires { 1 ≤ callers }
{
    let (store, pass) = PlainStore::open(Contents::empty(alloc, MAPS, LEVELS)?);
    let mut pass = pass;
    let mut sums = Sums {
        placed: 0,
        cancelled: 0,
        filled: 0,
    };
    'turns: for turn in 0..lines {
        let caller = turn % callers + 1;
        let line = turn / callers + 1;
        if let Some(command) = scripts.command(caller, line) {
            match store.attempt(&mut pass, 0, &command) {
                Attempt::Committed(reply) => sums.add(&command, &reply),
                Attempt::Stopped(_) => {}
            }
        }
    }
    Ok(sums)
}

// Writes the line of so many made commands. What is left open was placed, and neither cancelled nor
// filled.
fn write_line(text: &mut String, made: u32, sums: &Sums) -> Result<(), AllocError> {
    let Sums {
        placed,
        cancelled,
        filled,
    } = sums;
    let left = placed.saturating_sub(*cancelled).saturating_sub(*filled);
    writeln!(
        text,
        "made {made} placed {placed} cancelled {cancelled} filled {filled} open {left}"
    )
}

// The line of made scripts that one thread runs.
fn summed_in_turn(alloc: Global, number: u32, lines: u32, callers: u32) -> Result<String, Fail>
    requires lines { (1 ≤ lines) × (lines ≤ max_records) }
    requires callers { (1 ≤ callers) × (callers ≤ MAX_MADE_CALLERS) }
{
    let scripts = make(alloc, number, lines, callers)?;
    let sums = sums_in_turn(alloc, &scripts, lines, callers)?;
    let mut text = String::new(alloc);
    write_line(&mut text, scripts.total(), &sums)?;
    Ok(text)
}

// Words that have the same scripts of four callers made.
const FOUR_CALLERS: &[&[&str]] = &[
    &["--make", "7", "--lines", "20000", "--callers=4"],
    &["--make", "7", "--lines", "20000", "--callers=4"],
    &["--make=7", "--lines=20000", "--callers", "4", "--tries=64"],
    &["--make=7", "--lines=20000", "--callers", "4", "--nodes=99"],
];

// Runs with each of these words, which come to the same.
fn expect_made<R: Abort + AllocGlobal + Threads + Sync>(rt: &R, list: &[&[&str]], want: &[u8]) {
    for words in list {
        expect_with(rt, words, b"", AMPLE, Status::Done, want);
    }
}

// Made callers don't touch one another's orders. So what their lines come to is the same on one
// thread and on four, with few renewals and with many.
#[test]
fn made_scripts_come_to_the_same(rt: HostRuntime) -> Result<(), Fail> {
    let want = summed_in_turn(rt.alloc(), 7, 20_000, 4)?;
    expect_made(&rt, FOUR_CALLERS, want.as_bytes());
    Ok(())
}

#[test]
fn made_scripts_of_one_caller(rt: HostRuntime) -> Result<(), Fail> {
    let three = b"made 3 placed 165 cancelled 0 filled 0 open 165\n";
    expect_made(&rt, &[&["--make", "1", "--lines", "3"]], three);
    let want = summed_in_turn(rt.alloc(), 7, 20_000, 1)?;
    expect_made(&rt, &[&["--lines=20000", "--make=7"]], want.as_bytes());
    Ok(())
}
