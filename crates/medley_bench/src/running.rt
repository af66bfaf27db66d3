//! Threads that run transactions on one store, each with a pass of its own.

ghost use Rattle.std.specs.Prelude.{◌≡◌, ◌<◌, IfOk, IfSome};
ghost use Rattle.md_store.specs.Store.{IsPassOf};
ghost use Rattle.medley_bench.specs.Bursts.{HasOneMap};

use crate::draws::Draws;
use medley_transactions::{Attempt, Contents, Shape, Store, StorePass, attempt_until_committed};
use std::alloc::Global;
use std::thread::{Threads, join};

/// How many transactions each thread runs, and how many of `gets + 2` operations are a get.
#[derive(Clone, Copy, Drop)]
pub(crate) struct Load {
    pub transactions: u32,
    pub gets: u32,
}

/// What threads did: how many transactions were committed, and what they replied in all.
#[derive(Drop)]
pub(crate) struct Done {
    pub pass: StorePass,
    pub committed: u64,
    pub hits: u64,
}

/// Opens a store. `None` if it can't be opened, or if it wouldn't have one map and no queue.
pub(crate) fn opened(alloc: Global, shape: Shape, start: &Contents) -> Option<(Store, StorePass)>
    ensures of { IfSome result (λ r. IsPassOf r.0 r.1) }
    ensures numbers { IfSome result (λ r. HasOneMap r.0.origin.shape) }
{
    let maps = start.maps().len() == 1 && shape.maps == 1;
    let queues = start.queues().is_empty() && shape.queues == 0;
    if !maps || !queues {
        return None;
    }
    Store::open(alloc, shape, start).ok()
}

// Runs transactions one after another, until one stops for another reason than a conflict. The
// result has how many were committed, and what they replied in all.
fn run_bursts(store: &Store, pass: &mut StorePass, load: Load, thread: u32) -> (u64, u64)
    requires of { IsPassOf store.now pass.old }
    requires numbers { HasOneMap store.now.origin.shape }
    ensures of { IsPassOf store.now pass.new }
{
    let mut draws = Draws::of(thread);
    let mut committed: u64 = 0;
    let mut hits: u64 = 0;
    for number in 0..load.transactions {
        let burst = draws.burst(load.gets);
        match attempt_until_committed(store, pass, u64::from(number), &burst, u32::MAX) {
            Attempt::Committed(reply) => {
                committed = committed.wrapping_add(1);
                hits = hits.wrapping_add(reply as u64);
            }
            Attempt::Stopped(_) => return (committed, hits),
        }
    }
    (committed, hits)
}

/// What a thread does.
pub(crate) fn run_part(store: &Store, mut pass: StorePass, load: Load, thread: u32) -> Done
    requires of { IsPassOf store.now pass }
    requires numbers { HasOneMap store.now.origin.shape }
    ensures of { IsPassOf store.now result.pass }
{
    let (committed, hits) = run_bursts(store, &mut pass, load, thread);
    Done {
        pass,
        committed,
        hits,
    }
}

// Joins what two did.
fn join_done(store: &Store, first: Done, second: Done) -> Done
    requires of { IsPassOf store.now first.pass }
    requires of_other { IsPassOf store.now second.pass }
    ensures of { IsPassOf store.now result.pass }
{
    let Done {
        mut pass,
        committed,
        hits,
    } = first;
    store.join(&mut pass, second.pass);
    Done {
        pass,
        committed: committed.wrapping_add(second.committed),
        hits: hits.wrapping_add(second.hits),
    }
}

/// Two threads run transactions, each with half of the lanes. `None` if there is only one lane.
pub(crate) fn run_two<R: Threads + Sync>(
    rt: &R,
    store: &Store,
    mut pass: StorePass,
    load: Load,
    first: u32,
) -> Option<Done>
    requires of { IsPassOf store.now pass }
    requires numbers { HasOneMap store.now.origin.shape }
    requires first { first < 64 }
    ensures of { IfSome result (λ d. IsPassOf store.now d.pass) }
{
    let half = store.split(&mut pass)?;
    let (one, other) = join(
        rt,
        || run_part(store, pass, load, first),
        || run_part(store, half, load, first + 1),
    );
    Some(join_done(store, one, other))
}

/// Four threads run transactions, two of them with each half of the lanes. `None` if there are
/// fewer than four lanes.
pub(crate) fn run_four<R: Threads + Sync>(
    rt: &R,
    store: &Store,
    mut pass: StorePass,
    load: Load,
) -> Option<Done>
    requires of { IsPassOf store.now pass }
    requires numbers { HasOneMap store.now.origin.shape }
    ensures of { IfSome result (λ d. IsPassOf store.now d.pass) }
{
    let half = store.split(&mut pass)?;
    let (one, other) = join(
        rt,
        move || -> Option<Done>
            requires of { IsPassOf store.now pass }
            requires numbers { HasOneMap store.now.origin.shape }
            ensures of { IfSome result (λ d. IsPassOf store.entry.now d.pass) }
        { run_two(rt, store, pass, load, 0) },
        move || -> Option<Done>
            requires of { IsPassOf store.now half }
            requires numbers { HasOneMap store.now.origin.shape }
            ensures of { IfSome result (λ d. IsPassOf store.entry.now d.pass) }
        { run_two(rt, store, half, load, 2) },
    );
    Some(join_done(store, one?, other?))
}
