//! Transactions of two or three passes that are under way at the same time.

ghost use Rattle.std.specs.Prelude.{◌≡◌, None};
ghost use Rattle.md_store_interleavings.specs.Acting.{IsActing};
ghost use Rattle.md_nbtc.specs.State.{state};
ghost use Rattle.md_store.specs.Store.{IsPassOf};

use super::super::*;
use super::world::{Course, World};
use md_history::Act;
use md_nbtc::{Sets, Txn};

// Learns how the transaction ended that a pass left ready, if it did.
pub(super) fn learn(pass: &mut Pass<StoreTheory>, store: &Store, world: &mut World)
    requires { IsPassOf store.now pass.old }
    ensures { IsPassOf store.now pass.new }
{
    let lane = first_lane(pass);
    if let Some(place) = world.take_undecided(lane) {
        let committed = settled(pass, store);
        world.history.decide(place, committed);
    }
}

// The course of a pass's next transaction.
fn course<R: Abort>(
    rt: &R,
    pass: &mut Pass<StoreTheory>,
    store: &Store,
    world: &mut World,
) -> Course
    requires { IsPassOf store.now pass.old }
    ensures of { IsPassOf store.now pass.new }
    ensures none { result.stop ≡ None }
{
    learn(pass, store, world);
    world.course(rt, first_lane(pass))
}

// Makes one more operation.
fn step<R: Abort>(
    rt: &R,
    txn: &mut Txn<'_, StoreTheory>,
    course: &mut Course,
    store: &Store,
    world: &mut World,
)
    requires { IsActing store.now (state txn.old) course.old.stop }
    ensures pass { txn.new.pass.ghost_name ≡ txn.old.pass.ghost_name }
    ensures acting { IsActing store.now (state txn.new) course.new.stop }
{
    let op = world.op();
    if let Ok(reply) = act(txn, &mut course.stop, store, op) {
        world.history.did(rt, course.place, Act { op, reply });
    }
}

// Makes up to three more operations.
fn steps<R: Abort>(
    rt: &R,
    txn: &mut Txn<'_, StoreTheory>,
    course: &mut Course,
    store: &Store,
    world: &mut World,
)
    requires { IsActing store.now (state txn.old) course.old.stop }
    ensures pass { txn.new.pass.ghost_name ≡ txn.old.pass.ghost_name }
    ensures acting { IsActing store.now (state txn.new) course.new.stop }
{
    for made in 0..world.draw(4) {
        let _ = made;
        step(rt, txn, course, store, world);
    }
}

// Makes one more operation of one of two transactions.
fn turn<R: Abort>(
    rt: &R,
    first: &mut Txn<'_, StoreTheory>,
    one: &mut Course,
    second: &mut Txn<'_, StoreTheory>,
    two: &mut Course,
    store: &Store,
    world: &mut World,
)
    requires one { IsActing store.now (state first.old) one.old.stop }
    requires two { IsActing store.now (state second.old) two.old.stop }
    ensures first { first.new.pass.ghost_name ≡ first.old.pass.ghost_name }
    ensures second { second.new.pass.ghost_name ≡ second.old.pass.ghost_name }
    ensures one { IsActing store.now (state first.new) one.new.stop }
    ensures two { IsActing store.now (state second.new) two.new.stop }
{
    if world.draw(2) == 0 {
        step(rt, first, one, store, world);
    } else {
        step(rt, second, two, store, world);
    }
}

// Makes up to eleven operations of two transactions, in any order.
fn turns<R: Abort>(
    rt: &R,
    first: &mut Txn<'_, StoreTheory>,
    one: &mut Course,
    second: &mut Txn<'_, StoreTheory>,
    two: &mut Course,
    store: &Store,
    world: &mut World,
)
    requires one { IsActing store.now (state first.old) one.old.stop }
    requires two { IsActing store.now (state second.old) two.old.stop }
    ensures first { first.new.pass.ghost_name ≡ first.old.pass.ghost_name }
    ensures second { second.new.pass.ghost_name ≡ second.old.pass.ghost_name }
    ensures one { IsActing store.now (state first.new) one.new.stop }
    ensures two { IsActing store.now (state second.new) two.new.stop }
{
    for made in 0..world.draw(12) {
        let _ = made;
        turn(rt, first, one, second, two, store, world);
    }
}

// Ends a transaction in one of the ways.
fn end<R: Abort>(
    rt: &R,
    txn: Txn<'_, StoreTheory>,
    course: Course,
    store: &Store,
    world: &mut World,
)
    requires { IsActing store.now (state txn) course.stop }
    ensures { IsPassOf store.now txn.exit.0.now }
{
    let way = world.way(course.stop);
    let held = matches!(end_by(txn, course.stop, store, way), Ok(true));
    world.keep(rt, course, way, held);
}

// Two transactions at the same time, with room for both. After the first one has ended, the second
// one goes on.
fn pair_in<R: Abort>(
    rt: &R,
    store: &Store,
    a: &mut Pass<StoreTheory>,
    b: &mut Pass<StoreTheory>,
    sets: &mut Sets,
    others: &mut Sets,
    world: &mut World,
)
    requires a { IsPassOf store.now a.old }
    requires b { IsPassOf store.now b.old }
    ensures a { IsPassOf store.now a.new }
    ensures b { IsPassOf store.now b.new }
{
    let mut one = course(rt, a, store, world);
    let mut two = course(rt, b, store, world);
    let mut first = begun(rt, store, a, 1, sets);
    let mut second = begun(rt, store, b, 2, others);
    turns(
        rt,
        &mut first,
        &mut one,
        &mut second,
        &mut two,
        store,
        world,
    );
    end(rt, first, one, store, world);
    steps(rt, &mut second, &mut two, store, world);
    end(rt, second, two, store, world);
}

// Two transactions at the same time.
pub(super) fn pair<R: Abort>(
    rt: &R,
    store: &Store,
    a: &mut Pass<StoreTheory>,
    b: &mut Pass<StoreTheory>,
    world: &mut World,
)
    requires a { IsPassOf store.now a.old }
    requires b { IsPassOf store.now b.old }
    ensures a { IsPassOf store.now a.new }
    ensures b { IsPassOf store.now b.new }
{
    let mut sets = Sets::new();
    let mut others = Sets::new();
    pair_in(rt, store, a, b, &mut sets, &mut others, world);
}

// Makes operations of a transaction, and between them transactions of two other passes.
fn within<R: Abort>(
    rt: &R,
    txn: &mut Txn<'_, StoreTheory>,
    course: &mut Course,
    store: &Store,
    b: &mut Pass<StoreTheory>,
    c: &mut Pass<StoreTheory>,
    world: &mut World,
)
    requires acting { IsActing store.now (state txn.old) course.old.stop }
    requires b { IsPassOf store.now b.old }
    requires c { IsPassOf store.now c.old }
    ensures pass { txn.new.pass.ghost_name ≡ txn.old.pass.ghost_name }
    ensures acting { IsActing store.now (state txn.new) course.new.stop }
    ensures b { IsPassOf store.now b.new }
    ensures c { IsPassOf store.now c.new }
{
    for made in 0..world.draw(4) {
        let _ = made;
        steps(rt, txn, course, store, world);
        pair(rt, store, b, c, world);
    }
}

// A transaction during which two other passes make transactions.
pub(super) fn around<R: Abort>(
    rt: &R,
    store: &Store,
    a: &mut Pass<StoreTheory>,
    b: &mut Pass<StoreTheory>,
    c: &mut Pass<StoreTheory>,
    world: &mut World,
)
    requires a { IsPassOf store.now a.old }
    requires b { IsPassOf store.now b.old }
    requires c { IsPassOf store.now c.old }
    ensures a { IsPassOf store.now a.new }
    ensures b { IsPassOf store.now b.new }
    ensures c { IsPassOf store.now c.new }
{
    let mut one = course(rt, a, store, world);
    let mut sets = Sets::new();
    let mut txn = begun(rt, store, a, 3, &mut sets);
    within(rt, &mut txn, &mut one, store, b, c, world);
    end(rt, txn, one, store, world);
}
