//! Works of the library at the sizes that the words give, one after another, for the benchmarks:
//! `store ORDERS LANES NODES`, `loads STEPS`, `exchanges STEPS` and
//! `transactions THREADS LANES TRANSACTIONS GETS NODES`.
#![tactic(auto)]

mod bursts;
mod draws;
mod field;
mod fill;
mod keys;
mod running;
mod steps;
mod timing;

use field::{Sizing, measured};
use md_words::Shape;
use running::Load;
use std::alloc::Global;
use std::env;
use std::env::Args;
use std::process::ExitCode;
use std::rt::Clock;
use std::thread::Threads;
use std::time::CpuClock;
use steps::{MOST, exchanges, loads};
use timing::{Task, timed};

#[derive(Clone, Copy)]
enum Work {
    Store(Sizing),
    Loads(u32),
    Exchanges(u32),
    Transactions(Task),
}

// The next word, as a number.
fn number(words: &mut Args) -> Option<u32> {
    words.next()?.as_str().parse::<u32>().ok()
}

// What a word and the numbers behind it ask for.
fn work_of(word: &str, words: &mut Args) -> Option<Work> {
    let work = match word {
        "store" => Work::Store(Sizing {
            orders: number(words)?,
            lanes: number(words)?,
            nodes: number(words)?,
        }),
        "loads" => Work::Loads(number(words)?),
        "exchanges" => Work::Exchanges(number(words)?),
        "transactions" => Work::Transactions(Task {
            threads: number(words)?,
            lanes: number(words)?,
            load: Load {
                transactions: number(words)?,
                gets: number(words)?,
            },
            nodes: number(words)?,
        }),
        _ => return None,
    };
    Some(work)
}

// Does a work, and prints what came of it: how many words and nodes a field has, which bits were
// found, how many exchanges won, or how many transactions were committed and how many of their
// operations found or changed something. What it took is printed on standard error. `None` if
// memory runs out, or if a number is out of range.
fn done<R: Print + Eprint + Threads + Sync + Clock + CpuClock>(
    rt: &R,
    alloc: Global,
    work: Work,
) -> Option<()> {
    match work {
        Work::Store(sizing) => {
            let sizes = measured(alloc, sizing).ok()??;
            let _printed = println!(rt; "words {} nodes {}", sizes.words, sizes.nodes);
        }
        Work::Loads(steps) => {
            let shape = Shape::new(2, 1, 0, 1, 1, 1, 0).ok()?;
            let found = loads(alloc, shape, steps).ok()?;
            let _printed = println!(rt; "found {}", found);
        }
        Work::Exchanges(steps) => {
            let shape = Shape::new(2, 1, 0, 1, 1, 1, 0).ok()?;
            let won = exchanges(alloc, shape, steps.min(MOST)).ok()?;
            let _printed = println!(rt; "won {}", won);
        }
        Work::Transactions(task) => {
            let times = timed(rt, alloc, task)?;
            let _printed = eprintln!(rt; "{} {}", times.nanos, times.processor_nanos);
            let _printed = println!(rt; "{} {}", times.done.committed, times.done.hits);
        }
    }
    Some(())
}

fn main(rt: HostRuntime) -> ExitCode {
    let Ok(mut words) = env::args(&rt) else {
        return ExitCode::from(2);
    };
    let _name = words.next();
    for _ in 0..words.len() {
        let Some(word) = words.next() else {
            return ExitCode::SUCCESS;
        };
        let Some(work) = work_of(word.as_str(), &mut words) else {
            return ExitCode::from(2);
        };
        if done(&rt, rt.alloc(), work).is_none() {
            return ExitCode::FAILURE;
        }
    }
    // (There was no word: a work has a number, so the words are all read before the last turn.)
    ExitCode::from(2)
}
