//! Bodies that are run as transactions of a store, one after another.

ghost use Rattle.md_store.specs.Store.{IsPassOf};

use super::*;
use md_history::{Attempt, Body, Limit, Stop, TxCalls};

// A body that makes each call but `line` once, on one map and one queue, and answers what it dequeued.
#[derive(Clone, Copy, Drop)]
struct EachCall {
    key: u64,
    value: u64,
}

impl Body for EachCall {
    ghost use Rattle.std.specs.Prelude.{◌<◌, None};
    ghost use Rattle.md_history.specs.declared.acts.Op.TheVariants.{Get, Insert, Remove, Put, Enqueue};
    ghost use Rattle.md_history.specs.declared.acts.Op.TheVariants.{Dequeue, Front};
    ghost use Rattle.md_history.specs.declared.acts.Reply.TheVariants.{Value, Flag, Nothing, Line};
    ghost use Rattle.md_history.specs.Script.{Did, Follows, call, done};

    type Reply = Option<u64>;

    ghost did = { λ b acts r. Did
        (call (Insert 0 b.key b.value) (λ _. call (Get 0 b.key) (λ _. call (Remove 0 9) (λ _.
        call (Put 0 b.key b.value) (λ _. call (Enqueue 0 b.value) (λ _. call (Front 0) (λ _.
        call (Dequeue 0) (λ r.
        done (elim r [ Value v ↦ v | Flag b ↦ None | Nothing ↦ None | Line l ↦ None ])))))))))
        acts r };

    ghost makes = { λ b acts. Follows
        (call (Insert 0 b.key b.value) (λ _. call (Get 0 b.key) (λ _. call (Remove 0 9) (λ _.
        call (Put 0 b.key b.value) (λ _. call (Enqueue 0 b.value) (λ _. call (Front 0) (λ _.
        call (Dequeue 0) (λ r.
        done (elim r [ Value v ↦ v | Flag b ↦ None | Nothing ↦ None | Line l ↦ None ])))))))))
        acts };

    ghost fits = { λ b maps queues. (0 < maps) × (0 < queues) };

    fn go<T: TxCalls>(&self, t: &mut T) -> Result<Option<u64>, Stop> {
        t.insert(0, self.key, self.value)?;
        t.get(0, self.key)?;
        t.remove(0, 9)?;
        t.put(0, self.key, self.value)?;
        t.enqueue(0, self.value)?;
        t.front(0)?;
        t.dequeue(0)
    }

    ghost did_makes = { λ b acts r did. did.follows };
}

// Runs a body, if the store has a map and a queue.
fn end_of(
    rt: &impl Abort,
    store: &Store,
    pass: &mut StorePass,
    tag: u64,
    body: EachCall,
) -> Attempt<Option<u64>>
    requires { IsPassOf store.now pass.old }
    ensures { IsPassOf store.now pass.new }
{
    let shape = store.field().shape();
    holds(rt, shape.maps > 0);
    holds(rt, shape.queues > 0);
    store.attempt(pass, tag, &body)
}

// Runs a body: its end is this.
fn ends(
    rt: &impl Abort,
    store: &Store,
    pass: &mut StorePass,
    tag: u64,
    body: EachCall,
    end: Attempt<Option<u64>>,
)
    requires of { IsPassOf store.now pass.old }
    ensures of { IsPassOf store.now pass.new }
{
    same(rt, &end_of(rt, store, pass, tag, body), &end);
}

#[test]
fn a_body_runs_twice(rt: HostRuntime) {
    let start = pair_and_value(&rt, 9, 4, 1);
    let (store, mut pass) = opened(&rt, Shape::new(1, 16, 3, 4, 1, 2, 1), &start);
    let first = EachCall { key: 5, value: 6 };
    ends(
        &rt,
        &store,
        &mut pass,
        30,
        first,
        Attempt::Committed(Some(1)),
    );
    let second = EachCall { key: 5, value: 7 };
    ends(
        &rt,
        &store,
        &mut pass,
        20,
        second,
        Attempt::Committed(Some(6)),
    );
    gives_back(&rt, store, pass, &pair_and_value(&rt, 5, 7, 7));
}

#[test]
fn a_body_without_nodes_leaves_nothing(rt: HostRuntime) {
    let start = pair_and_value(&rt, 9, 4, 1);
    let (store, mut pass) = opened(&rt, Shape::new(1, 1, 3, 4, 1, 2, 1), &start);
    let body = EachCall { key: 5, value: 6 };
    let end = Attempt::Stopped(Stop::Limit(Limit::Nodes));
    ends(&rt, &store, &mut pass, 1, body, end);
    gives_back(&rt, store, pass, &start);
}

#[test]
fn a_lane_runs_out_of_attempts(rt: HostRuntime) {
    let start = pair_and_value(&rt, 9, 4, 1);
    let (store, mut pass) = opened(&rt, Shape::new(1, 16, 3, 1, 1, 2, 1), &start);
    let first = EachCall { key: 5, value: 6 };
    ends(
        &rt,
        &store,
        &mut pass,
        1,
        first,
        Attempt::Committed(Some(1)),
    );
    let second = EachCall { key: 7, value: 8 };
    let end = Attempt::Stopped(Stop::Limit(Limit::Tries));
    ends(&rt, &store, &mut pass, 2, second, end);
}
