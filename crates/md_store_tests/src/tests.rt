//! Stores that are opened, divided, put together again, settled, renewed and closed, without
//! transactions; `attempts` runs bodies, and `fields` opens fields alone.

ghost use Rattle.std.specs.Prelude.{◌≤◌, IfOk, IfSome, IsTrue};
ghost use Rattle.md_history.specs.Engine.{needed};
ghost use Rattle.md_store.specs.Store.{IsFresh, IsPassOf, room_of, start_of};

use md_history::Contents;
use md_store::{OpenFault, Store, StorePass};
use md_words::{Shape, ShapeFault};
use std::alloc::{AllocGlobal, Global};
use std::fmt::Debug;
use std::process::Abort;

mod attempts;
mod examples;
mod fields;
mod interleavings;
mod trials;

// What was found is what was wanted. (A call is proved sooner than an `assert_eq!`.)
fn same<T: PartialEq + Debug>(rt: &impl Abort, found: &T, wanted: &T) {
    assert_eq!(rt; *found, *wanted);
}

// Something holds, and what follows is proved by it.
fn holds(rt: &impl Abort, fact: bool)
    ensures { IsTrue fact }
{
    assert!(rt; fact);
}

// Two pairs in two maps, and three values in two queues.
fn pairs_and_values<R: Abort + AllocGlobal>(rt: &R) -> Contents {
    let mut contents = Contents::empty(rt.alloc(), 2, 2).expect(rt, "memory");
    contents.put(0, 5, 6).expect(rt, "memory");
    contents.put(1, 7, 8).expect(rt, "memory");
    contents.push(0, 1).expect(rt, "memory");
    contents.push(0, 2).expect(rt, "memory");
    contents.push(1, 3).expect(rt, "memory");
    contents
}

// A pair in a map, and a value in a queue.
fn pair_and_value<R: Abort + AllocGlobal>(rt: &R, key: u64, value: u64, first: u64) -> Contents {
    let mut contents = Contents::empty(rt.alloc(), 1, 1).expect(rt, "memory");
    contents.put(0, key, value).expect(rt, "memory");
    contents.push(0, first).expect(rt, "memory");
    contents
}

// Opens a store, if the contents have as many maps and queues as the shape.
fn try_open(alloc: Global, shape: Shape, start: &Contents) -> Result<(Store, StorePass), OpenFault>
    ensures of { IfOk result (λ r. IsPassOf r.0 r.1) }
    ensures fresh { IfOk result (λ r. IsFresh r.1) }
    ensures room { IfOk result (λ r. needed (start_of r.0) ≤ room_of r.0.origin.shape) }
{
    let maps = start.maps().len() == shape.maps as usize;
    let queues = start.queues().len() == shape.queues as usize;
    if !maps || !queues {
        return Err(OpenFault::NoMemory);
    }
    Store::open(alloc, shape, start)
}

// The store that is opened so.
fn opened<R: Abort + AllocGlobal>(
    rt: &R,
    shape: Result<Shape, ShapeFault>,
    start: &Contents,
) -> (Store, StorePass)
    ensures of { IsPassOf result.0 result.1 }
    ensures fresh { IsFresh result.1 }
    ensures room { needed (start_of result.0) ≤ room_of result.0.origin.shape }
{
    let shape = shape.expect(rt, "a shape");
    try_open(rt.alloc(), shape, start).expect(rt, "a store")
}

// Renews a store whose pass has seen nothing.
fn renewed(rt: &impl Abort, store: Store, pass: StorePass) -> (Store, StorePass)
    requires of { IsPassOf store pass }
    requires fresh { IsFresh pass }
    requires room { needed (start_of store) ≤ room_of store.origin.shape }
    ensures of { IsPassOf result.0 result.1 }
    ensures fresh { IsFresh result.1 }
    ensures room { needed (start_of result.0) ≤ room_of result.0.origin.shape }
{
    let (again, first, _) = store.renew(pass).expect(rt, "memory");
    (again, first)
}

// The maps and queues of both are the same.
fn assert_same(rt: &impl Abort, back: &Contents, want: &Contents) {
    same(rt, &back.maps(), &want.maps());
    same(rt, &back.queues(), &want.queues());
}

// Closes a store and reads off its maps from a number on. The pass holds all lanes.
fn has_maps_from(rt: &impl Abort, store: Store, pass: StorePass, first: u32, want: &Contents)
    requires { IsPassOf store pass }
{
    holds(rt, store.holds_all(&pass));
    let (contents, _) = store.close_maps(pass, first).expect(rt, "memory");
    assert_same(rt, &contents, want);
}

// Settles a store and closes it: it has these contents. The pass holds all lanes.
fn gives_back(rt: &impl Abort, store: Store, mut pass: StorePass, want: &Contents)
    requires { IsPassOf store pass }
{
    holds(rt, store.holds_all(&pass));
    store.settle(&mut pass);
    let (contents, _) = store.close(pass).expect(rt, "memory");
    assert_same(rt, &contents, want);
}

#[test]
fn an_empty_store_is_closed(rt: HostRuntime) {
    let start = Contents::empty(rt.alloc(), 1, 0).expect(&rt, "memory");
    let (store, pass) = opened(&rt, Shape::new(1, 1, 0, 1, 1, 1, 0), &start);
    gives_back(&rt, store, pass, &start);
}

#[test]
fn contents_come_back(rt: HostRuntime) {
    let start = pairs_and_values(&rt);
    let (store, pass) = opened(&rt, Shape::new(4, 2, 7, 3, 2, 4, 2), &start);
    gives_back(&rt, store, pass, &start);
}

#[test]
fn only_the_maps_from_a_number_on_come_back(rt: HostRuntime) {
    let start = pairs_and_values(&rt);
    let (store, pass) = opened(&rt, Shape::new(4, 2, 7, 3, 2, 4, 2), &start);
    let mut expected = Contents::empty(rt.alloc(), 2, 2).expect(&rt, "memory");
    expected.put(1, 7, 8).expect(&rt, "memory");
    has_maps_from(&rt, store, pass, 1, &expected);
}

#[test]
fn contents_outlast_renewals(rt: HostRuntime) {
    let start = pairs_and_values(&rt);
    let (store, pass) = opened(&rt, Shape::new(4, 2, 20, 3, 2, 4, 2), &start);
    let (store, pass) = renewed(&rt, store, pass);
    same(&rt, &store.field().shape().base, &7);
    let (store, pass) = renewed(&rt, store, pass);
    gives_back(&rt, store, pass, &start);
}

#[test]
fn a_queue_needs_a_base_node(rt: HostRuntime) {
    let start = Contents::empty(rt.alloc(), 1, 1).expect(&rt, "memory");
    let shape = Shape::new(2, 16, 0, 4, 1, 64, 1).expect(&rt, "a shape");
    let fault = try_open(rt.alloc(), shape, &start).err();
    same(&rt, &fault, &Some(OpenFault::NoRoom { needed: 1, base: 0 }));
}

// Divides a store: the other part. `None` if the pass has one lane.
fn split(store: &Store, pass: &mut StorePass) -> Option<StorePass>
    requires { IsPassOf store.now pass.old }
    ensures kept { IsPassOf store.now pass.new }
    ensures given { IfSome result (λ p. IsPassOf store.now p) }
{
    store.split(pass)
}

// Divides a store of two lanes, and puts it together again.
fn part_and_meet(rt: &impl Abort, store: &Store, pass: &mut StorePass)
    requires { IsPassOf store.now pass.old }
    ensures { IsPassOf store.now pass.new }
{
    let second = split(store, pass).expect(rt, "two lanes");
    same(rt, &[pass.pass.lanes(), second.pass.lanes()], &[1, 1]);
    holds(rt, split(store, pass).is_none());
    store.join(pass, second);
}

#[test]
fn two_lanes_part_and_meet(rt: HostRuntime) {
    let start = pairs_and_values(&rt);
    let (store, mut pass) = opened(&rt, Shape::new(2, 1, 7, 1, 2, 4, 2), &start);
    part_and_meet(&rt, &store, &mut pass);
    gives_back(&rt, store, pass, &start);
}
