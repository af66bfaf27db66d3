//! A body that makes calls runs over the store.

ghost use Rattle.std.specs.Prelude.{◌≡◌, length};
ghost use Rattle.md_history.specs.Plain.{IsPassOf};

use crate::tests::acts::has_acts;
use crate::tests::contents::{map_is, push, put, queue_is};
use crate::tests::same;
use md_history::{
    Act, Attempt, Body, Contents, Engine, Entry, Op, PlainPass, PlainStore, Reply, Stop, TxCalls,
};
use std::alloc::AllocGlobal;
use std::process::Abort;

// A body that makes each call once, on one map and one queue, and answers what it dequeued.
#[derive(Clone, Copy, Drop)]
struct EachCall {
    key: u64,
    value: u64,
}

impl Body for EachCall {
    ghost use Rattle.std.specs.Prelude.{◌<◌, None};
    ghost use Rattle.md_history.specs.declared.acts.Op.TheVariants.{Get, Insert, Remove, Put, Enqueue};
    ghost use Rattle.md_history.specs.declared.acts.Op.TheVariants.{Dequeue, Front};
    ghost use Rattle.md_history.specs.declared.acts.Reply.TheVariants.{Value, Flag, Nothing, Line};
    ghost use Rattle.md_history.specs.Script.{Did, Follows, call, done};

    type Reply = Option<u64>;

    ghost did = { λ b acts r. Did
        (call (Insert 0 b.key b.value) (λ _. call (Get 0 b.key) (λ _. call (Remove 0 9) (λ _.
        call (Put 0 b.key b.value) (λ _. call (Enqueue 0 b.value) (λ _. call (Front 0) (λ _.
        call (Dequeue 0) (λ r.
        done (elim r [ Value v ↦ v | Flag b ↦ None | Nothing ↦ None | Line l ↦ None ])))))))))
        acts r };

    ghost makes = { λ b acts. Follows
        (call (Insert 0 b.key b.value) (λ _. call (Get 0 b.key) (λ _. call (Remove 0 9) (λ _.
        call (Put 0 b.key b.value) (λ _. call (Enqueue 0 b.value) (λ _. call (Front 0) (λ _.
        call (Dequeue 0) (λ r.
        done (elim r [ Value v ↦ v | Flag b ↦ None | Nothing ↦ None | Line l ↦ None ])))))))))
        acts };

    ghost fits = { λ b maps queues. (0 < maps) × (0 < queues) };

    fn go<T: TxCalls>(&self, t: &mut T) -> Result<Option<u64>, Stop> {
        t.insert(0, self.key, self.value)?;
        t.get(0, self.key)?;
        t.remove(0, 9)?;
        t.put(0, self.key, self.value)?;
        t.enqueue(0, self.value)?;
        t.front(0)?;
        t.dequeue(0)
    }

    ghost did_makes = { λ b acts r did. did.follows };
}

// The acts of that body, with what was answered.
fn acts_of(body: EachCall, absent: bool, found: u64, removed: Option<u64>, first: u64) -> [Act; 7] {
    let EachCall { key, value } = body;
    [
        Act {
            op: Op::Insert { map: 0, key, value },
            reply: Reply::Flag(absent),
        },
        Act {
            op: Op::Get { map: 0, key },
            reply: Reply::Value(Some(found)),
        },
        Act {
            op: Op::Remove { map: 0, key: 9 },
            reply: Reply::Value(removed),
        },
        Act {
            op: Op::Put { map: 0, key, value },
            reply: Reply::Value(Some(found)),
        },
        Act {
            op: Op::Enqueue { queue: 0, value },
            reply: Reply::Nothing,
        },
        Act {
            op: Op::Front { queue: 0 },
            reply: Reply::Value(Some(first)),
        },
        Act {
            op: Op::Dequeue { queue: 0 },
            reply: Reply::Value(Some(first)),
        },
    ]
}

// A map in which 9 has the value 4, and a queue with the value 1.
fn one_of_each(rt: &(impl Abort + AllocGlobal)) -> Contents
    ensures maps { length result.maps ≡ 1 }
    ensures queues { length result.queues ≡ 1 }
{
    let mut contents = Contents::empty(rt.alloc(), 1, 1).expect(rt, "memory");
    put(&mut contents, 0, 9, 4).expect(rt, "memory");
    push(&mut contents, 0, 1).expect(rt, "memory");
    if contents.maps().len() != 1 || contents.queues().len() != 1 {
        panic!(rt; "another shape")
    }
    contents
}

// The entry is committed on the only lane, and has these acts.
fn is_entry(rt: &impl Abort, entry: &Entry, number: u64, tag: u64, acts: &[Act]) {
    let head = (entry.lane, entry.number, entry.tag, entry.sound);
    same(rt, &head, &(0, number, tag, true));
    has_acts(rt, &entry.acts, acts);
}

// The entries of two such bodies with one key, and no others.
fn has_both(rt: &impl Abort, entries: &[Entry], first: EachCall, second: EachCall) {
    let [one, two] = entries else {
        panic!(rt; "two entries")
    };
    is_entry(rt, one, 0, 30, &acts_of(first, true, 6, Some(4), 1));
    is_entry(rt, two, 1, 20, &acts_of(second, false, 6, None, 6));
}

// Runs a body, and returns what it answered.
fn end_of(
    store: &PlainStore,
    pass: &mut PlainPass,
    tag: u64,
    body: EachCall,
) -> Attempt<Option<u64>>
    requires of { IsPassOf store.now pass.old }
    requires maps { length store.now.maps ≡ 1 }
    requires queues { length store.now.queues ≡ 1 }
    ensures { IsPassOf store.now pass.new }
{
    store.attempt(pass, tag, &body)
}

#[test]
fn a_body_runs_twice(rt: HostRuntime) {
    let (store, mut pass) = PlainStore::open(one_of_each(&rt));
    let first = EachCall { key: 5, value: 6 };
    let second = EachCall { key: 5, value: 7 };
    let one = end_of(&store, &mut pass, 30, first);
    same(&rt, &one, &Attempt::Committed(Some(1)));
    let two = end_of(&store, &mut pass, 20, second);
    same(&rt, &two, &Attempt::Committed(Some(6)));
    has_both(&rt, pass.entries(), first, second);
    let (contents, _front) = store.contents(pass).expect(&rt, "memory");
    map_is(
        &rt,
        &contents,
        0,
        Some([Some(1), None, Some(7), None, None]),
    );
    queue_is(
        &rt,
        &contents,
        0,
        Some([Some(1), Some(7), None, None, None]),
    );
}
