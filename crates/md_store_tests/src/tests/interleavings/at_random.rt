//! Transactions of four passes, whose operations come in an order that a seed gives. Their replies,
//! and what is left, are compared with one thread that makes the committed ones in the order in
//! which they became ready.

ghost use Rattle.md_store.specs.Store.{IsPassOf};

use super::*;
use md_history::Fate;
use pairs::{around, learn, pair};
use plain::Plain;
use world::{LANES, MAPS, QUEUES, World};

mod history;
mod pairs;
mod plain;
mod world;

// Takes three more passes out of one that holds four lanes.
fn split<R: Abort>(rt: &R, store: &Store, pass: &mut StorePass) -> (StorePass, StorePass, StorePass)
    requires { IsPassOf store.now pass.old }
    ensures of { IsPassOf store.now pass.new }
    ensures second { IsPassOf store.now result.0 }
    ensures third { IsPassOf store.now result.1 }
    ensures fourth { IsPassOf store.now result.2 }
{
    let mut third = halved(rt, store, pass);
    let second = halved(rt, store, pass);
    let fourth = halved(rt, store, &mut third);
    (second, third, fourth)
}

// One round: some of the passes make transactions at the same time.
fn round<R: Abort>(
    rt: &R,
    store: &Store,
    a: &mut Pass<StoreTheory>,
    b: &mut Pass<StoreTheory>,
    c: &mut Pass<StoreTheory>,
    world: &mut World,
)
    requires a { IsPassOf store.now a.old }
    requires b { IsPassOf store.now b.old }
    requires c { IsPassOf store.now c.old }
    ensures a { IsPassOf store.now a.new }
    ensures b { IsPassOf store.now b.new }
    ensures c { IsPassOf store.now c.new }
{
    match world.draw(3) {
        0 => pair(rt, store, a, b, world),
        1 => around(rt, store, b, c, a, world),
        _ => around(rt, store, a, b, c, world),
    }
}

// One round of three of the passes.
fn turn<R: Abort>(
    rt: &R,
    store: &Store,
    a: &mut Pass<StoreTheory>,
    b: &mut Pass<StoreTheory>,
    c: &mut Pass<StoreTheory>,
    d: &mut Pass<StoreTheory>,
    world: &mut World,
)
    requires a { IsPassOf store.now a.old }
    requires b { IsPassOf store.now b.old }
    requires c { IsPassOf store.now c.old }
    requires d { IsPassOf store.now d.old }
    ensures a { IsPassOf store.now a.new }
    ensures b { IsPassOf store.now b.new }
    ensures c { IsPassOf store.now c.new }
    ensures d { IsPassOf store.now d.new }
{
    match world.draw(4) {
        0 => round(rt, store, a, b, c, world),
        1 => round(rt, store, b, d, a, world),
        2 => round(rt, store, c, d, b, world),
        _ => round(rt, store, d, c, a, world),
    }
}

// Rounds of four passes.
fn rounds<R: Abort>(
    rt: &R,
    store: &Store,
    a: &mut Pass<StoreTheory>,
    b: &mut Pass<StoreTheory>,
    c: &mut Pass<StoreTheory>,
    d: &mut Pass<StoreTheory>,
    world: &mut World,
    count: u64,
)
    requires a { IsPassOf store.now a.old }
    requires b { IsPassOf store.now b.old }
    requires c { IsPassOf store.now c.old }
    requires d { IsPassOf store.now d.old }
    ensures a { IsPassOf store.now a.new }
    ensures b { IsPassOf store.now b.new }
    ensures c { IsPassOf store.now c.new }
    ensures d { IsPassOf store.now d.new }
{
    for made in 0..count {
        let _ = made;
        turn(rt, store, a, b, c, d, world);
    }
    learn(a, store, world);
    learn(b, store, world);
    learn(c, store, world);
    learn(d, store, world);
}

// A store with four lanes, which have nodes and attempts for many rounds.
fn large<R: Abort + AllocGlobal>(rt: &R) -> (Store, StorePass)
    ensures { IsPassOf result.0 result.1 }
{
    let (maps, queues) = (MAPS as u32, QUEUES as u32);
    let shape = Shape::new(LANES, 100_000, 2, 1_000_000, maps, 4, queues).expect(rt, "a shape");
    let start = Contents::empty(rt.alloc(), maps, queues).expect(rt, "memory");
    opened(rt, shape, &start)
}

// Rounds of the four passes of a store: what is left there.
fn played_by<R: Abort>(
    rt: &R,
    store: Store,
    mut a: StorePass,
    mut b: StorePass,
    mut c: StorePass,
    mut d: StorePass,
    world: &mut World,
    count: u64,
) -> Contents
    requires a { IsPassOf store a }
    requires b { IsPassOf store b }
    requires c { IsPassOf store c }
    requires d { IsPassOf store d }
{
    rounds(
        rt,
        &store,
        &mut a.pass,
        &mut b.pass,
        &mut c.pass,
        &mut d.pass,
        world,
        count,
    );
    meet(&store, &mut a, b);
    meet(&store, &mut a, c);
    meet(&store, &mut a, d);
    closed(rt, store, a)
}

// Many rounds on a new store: what is left there.
fn played<R: Abort + AllocGlobal>(rt: &R, world: &mut World, count: u64) -> Contents {
    let (store, mut a) = large(rt);
    let (b, c, d) = split(rt, &store, &mut a);
    played_by(rt, store, a, b, c, d, world, count)
}

// Each transaction that became ready was decided, and none met a limit. One thread makes the
// committed ones again: it has the same replies, and leaves the same.
fn replays_to<R: Abort + AllocGlobal>(rt: &R, world: &World, left: &Contents) {
    let mut plain = Plain::empty(rt, MAPS as u32, QUEUES as u32);
    let other = world.history.replay(rt, &mut plain);
    let undecided = world.history.count(Fate::Undecided);
    same(rt, &(other, undecided, world.ends.limit), &(None, 0, 0));
    contains(rt, left, &plain.maps, &plain.queues);
}

// Of the ends that transactions come to, each is counted: the least count.
fn least_count(world: &World) -> usize {
    let committed = world.history.count(Fate::Committed);
    let aborted = world.history.count(Fate::Aborted);
    let stopped = world.ends.conflict.min(world.ends.stopped);
    let left = world.ends.left.min(world.ends.left_ready);
    committed.min(aborted).min(stopped).min(left)
}

#[test]
fn transactions_take_place_in_the_order_of_their_ready_steps(rt: HostRuntime) {
    let mut world = World::new(rt.alloc(), 11);
    let left = played(&rt, &mut world, 10_000);
    replays_to(&rt, &world, &left);
    let many = [least_count(&world) > 100, world.made() > 80_000];
    same(&rt, &many, &[true; 2]);
}
