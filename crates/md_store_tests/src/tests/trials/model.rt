//! Transactions of calls by lot, run over the store and over a store for one thread.

ghost use Rattle.std.specs.Prelude.{◌≡◌};
ghost use Rattle.md_store.specs.Store.{IsPassOf};

use super::*;
use md_history::{Attempt, Engine, Limit, PlainPass, PlainStore, Stop};
use std::marker::Model;

// What transactions came to.
#[derive(Clone, Copy, Debug, PartialEq, Eq)]
struct Tally {
    /// How many calls the committed ones made.
    calls: u64,
    /// How many stopped because no node was left.
    without_nodes: u64,
    /// How many stopped because no attempt was left.
    without_tries: u64,
    /// How many answered something else than those over the store for one thread, or stopped for
    /// another reason.
    wrong: u64,
}

const NONE: Tally = Tally {
    calls: 0,
    without_nodes: 0,
    without_tries: 0,
    wrong: 0,
};

// A store for one thread with its pass, and what transactions came to beside it. It has two maps
// and two queues at least.
#[derive(Drop)]
struct Plain {
    store: PlainStore,
    pass: PlainPass,
    tally: Tally,
}

impl Model for Plain {
    ghost use Rattle.std.specs.Prelude.{◌<◌, length};
    ghost use Rattle.md_history.specs.Plain.{IsPassOf};

    ghost Value = { Unit {0} };

    ghost view = { λ p. tt };

    ghost invariant = { λ p. IsPassOf p.store p.pass × (1 < length p.store.maps)
        × (1 < length p.store.queues) };
}

impl Plain {
    // An empty store.
    fn empty<R: Abort + AllocGlobal>(rt: &R) -> Plain {
        let (store, pass) = PlainStore::open(empty(rt));
        Plain {
            store,
            pass,
            tally: NONE,
        }
    }

    // Runs a body that was committed elsewhere with these replies, and counts it.
    fn run(&mut self, number: u32, body: &Mix, replies: [Reply; MOST_CALLS]) {
        let attempt = self.store.attempt(&mut self.pass, number as u64, body);
        if attempt == Attempt::Committed(replies) {
            self.tally.calls = self.tally.calls.saturating_add(body.calls as u64);
        } else {
            count(&mut self.tally.wrong);
        }
    }

    // Counts a transaction that stopped elsewhere.
    fn stop(&mut self, why: Stop) {
        match why {
            Stop::Limit(Limit::Nodes) => count(&mut self.tally.without_nodes),
            Stop::Limit(Limit::Tries) => count(&mut self.tally.without_tries),
            _ => count(&mut self.tally.wrong),
        }
    }

    // What it contains in the end.
    fn contents<R: Abort>(self, rt: &R) -> Contents {
        let Plain { store, pass, .. } = self;
        let (contents, _) = store.contents(pass).expect(rt, "memory");
        contents
    }
}

// The body of a transaction.
fn mix_of(number: u32) -> Mix {
    Mix {
        seed: number.wrapping_mul(0x9E37_79B9),
        calls: (1 + number % MOST_CALLS as u32) as u8,
    }
}

// Counts one more.
fn count(counter: &mut u64) {
    *counter = counter.saturating_add(1);
}

// Runs a body over the store, and, if it was committed, over the store for one thread, too.
fn run_both(store: &Store, pass: &mut StorePass, plain: &mut Plain, number: u32)
    requires of { IsPassOf store.now pass.old }
    requires maps { store.now.origin.shape.maps ≡ 2 }
    requires queues { store.now.origin.shape.queues ≡ 2 }
    ensures of { IsPassOf store.now pass.new }
{
    let body = mix_of(number);
    match store.attempt(pass, number as u64, &body) {
        Attempt::Committed(replies) => plain.run(number, &body, replies),
        Attempt::Stopped(why) => plain.stop(why),
    }
}

// Runs so many bodies over both, from a number on.
fn run_all(store: &Store, pass: &mut StorePass, plain: &mut Plain, first: u32, count: u32)
    requires of { IsPassOf store.now pass.old }
    requires maps { store.now.origin.shape.maps ≡ 2 }
    requires queues { store.now.origin.shape.queues ≡ 2 }
    ensures of { IsPassOf store.now pass.new }
{
    for i in 0..count {
        run_both(store, pass, plain, first.wrapping_add(i));
    }
}

// Opens a store on contents, runs bodies over it, and closes it.
fn run_round<R: Abort + AllocGlobal>(
    rt: &R,
    shape: Shape,
    start: &Contents,
    plain: &mut Plain,
    first: u32,
    count: u32,
) -> Contents {
    let (store, mut pass) = opened(rt.alloc(), shape, start).expect(rt, "a store");
    run_all(&store, &mut pass, plain, first, count);
    left_in(rt, store, pass)
}

// Runs 100 bodies over each of so many stores, which is opened on what the one before left.
fn run_rounds<R: Abort + AllocGlobal>(
    rt: &R,
    shape: Shape,
    plain: &mut Plain,
    rounds: u32,
) -> Contents {
    let mut back = empty(rt);
    for round in 0..rounds {
        back = run_round(rt, shape, &back, plain, round.wrapping_mul(100), 100);
    }
    back
}

// Runs so many times ten bodies, by two passes of a store in turn.
fn run_in_turn(
    store: &Store,
    one: &mut StorePass,
    other: &mut StorePass,
    plain: &mut Plain,
    turns: u32,
)
    requires of { IsPassOf store.now one.old }
    requires of_other { IsPassOf store.now other.old }
    requires maps { store.now.origin.shape.maps ≡ 2 }
    requires queues { store.now.origin.shape.queues ≡ 2 }
    ensures of { IsPassOf store.now one.new }
    ensures of_other { IsPassOf store.now other.new }
{
    for turn in 0..turns {
        let first = turn.wrapping_mul(10);
        run_all(store, one, plain, first, 7);
        run_all(store, other, plain, first.wrapping_add(7), 3);
    }
}

// Opens a store, runs bodies over it by two passes in turn, and closes it.
fn run_two<R: Abort + AllocGlobal>(
    rt: &R,
    shape: Shape,
    plain: &mut Plain,
    turns: u32,
) -> Contents {
    let (store, mut one) = opened(rt.alloc(), shape, &empty(rt)).expect(rt, "a store");
    let mut other = store.split(&mut one).expect(rt, "two lanes");
    run_in_turn(&store, &mut one, &mut other, plain, turns);
    store.join(&mut one, other);
    left_in(rt, store, one)
}

// What is left is what the store for one thread contains.
fn leaves<R: Abort>(rt: &R, plain: Plain, left: &Contents) {
    assert_same(rt, left, &plain.contents(rt));
}

// A shape with two maps and two queues.
fn shape_of<R: Abort>(
    rt: &R,
    lanes: u32,
    nodes: u32,
    base: u32,
    tries: u32,
    buckets: u32,
) -> Shape {
    Shape::new(lanes, nodes, base, tries, 2, buckets, 2).expect(rt, "a shape")
}

// 100,000 transactions make 550,000 calls on maps of three buckets.
#[test]
fn a_store_answers_as_one_for_one_thread(rt: HostRuntime) {
    let mut plain = Plain::empty(&rt);
    let shape = shape_of(&rt, 1, 400_000, 2, 100_000, 3);
    let back = run_round(&rt, shape, &empty(&rt), &mut plain, 0, 100_000);
    let calls = 550_000;
    same(&rt, &plain.tally, &Tally { calls, ..NONE });
    leaves(&rt, plain, &back);
}

// Each of 1,000 stores has two lanes with 20 nodes and 30 attempts each, and is opened on what the
// one before left. So of 100 transactions 40 find no attempt left, and some others no node.
#[test]
fn stopped_transactions_leave_nothing(rt: HostRuntime) {
    let mut plain = Plain::empty(&rt);
    let back = run_rounds(&rt, shape_of(&rt, 2, 20, 2_000, 30, 3), &mut plain, 1_000);
    let tally = plain.tally;
    same(&rt, &(tally.wrong, tally.without_tries), &(0, 40_000));
    let many = [tally.without_nodes > 5_000, tally.calls > 50_000];
    same(&rt, &many, &[true; 2]);
    leaves(&rt, plain, &back);
}

// Two passes of two lanes each run 40,000 transactions in turn, on maps of one bucket: nothing of
// one is in the other's way.
#[test]
fn passes_in_turn_answer_as_one(rt: HostRuntime) {
    let mut plain = Plain::empty(&rt);
    let back = run_two(
        &rt,
        shape_of(&rt, 4, 60_000, 2, 14_000, 1),
        &mut plain,
        4_000,
    );
    let calls = 220_000;
    same(&rt, &plain.tally, &Tally { calls, ..NONE });
    leaves(&rt, plain, &back);
}
