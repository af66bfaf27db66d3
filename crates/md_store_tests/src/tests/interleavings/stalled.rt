//! Transactions that are left at each of their stages, and what the next one finds.

ghost use Rattle.md_store.specs.Store.{IsPassOf};

use super::*;

// What the next transaction finds of one that was left: the value of key 1, and then the head of
// that key's bucket, and the word of the status of the one that was left, with what stands there.
#[derive(Clone, Copy)]
struct Found {
    value: Option<u64>,
    head: u64,
    status: (u32, u64),
}

// Makes operations of a transaction, and leaves it, ready or not. It is ready if it is to be.
fn left<R: Abort + AllocGlobal>(
    rt: &R,
    store: &Store,
    pass: &mut Pass<StoreTheory>,
    ops: &[Op],
    ready: bool,
)
    requires { IsPassOf store.now pass.old }
    ensures { IsPassOf store.now pass.new }
{
    let way = if ready { Way::LeaveReady } else { Way::Leave };
    let mut told = Vec::new(rt.alloc());
    let plan = Plan { tag: 7, ops, way };
    let is_ready = matches!(all(rt, store, pass, &plan, &mut told), Ok(true));
    same(rt, &is_ready, &ready);
}

// Looks at key 1 by the pass `other`, then goes on with both passes joined.
fn looked<R: Abort + AllocGlobal>(
    rt: &R,
    store: Store,
    pass: StorePass,
    mut other: StorePass,
    found: &Found,
    left: &[(u64, u64)],
)
    requires of { IsPassOf store pass }
    requires of_other { IsPassOf store other }
{
    found_by(rt, &store, &mut other.pass, found);
    ends_with(rt, store, pass, other, left);
}

// Looks at key 1 by a pass: its value, and what then stands in both words.
fn found_by<R: Abort + AllocGlobal>(
    rt: &R,
    store: &Store,
    pass: &mut Pass<StoreTheory>,
    found: &Found,
)
    requires { IsPassOf store.now pass.old }
    ensures { IsPassOf store.now pass.new }
{
    replies(rt, store, pass, get(1), Reply::Value(found.value));
    show(rt, store, pass, &[(2, found.head), found.status]);
}

// A transaction with these operations is left over these pairs.
fn stalled<R: Abort + AllocGlobal>(
    rt: &R,
    start: &[(u64, u64)],
    ops: &[Op],
    ready: bool,
    found: &Found,
    end: &[(u64, u64)],
) {
    let (store, mut a, b) = divided(rt, start);
    left(rt, &store, &mut a.pass, ops, ready);
    looked(rt, store, a, b, found, end);
}

#[test]
fn one_that_has_begun_leaves_nothing(rt: HostRuntime) {
    let found = Found {
        value: None,
        head: 0,
        status: (166, 0),
    };
    stalled(&rt, &[], &[], false, &found, &[(3, 30)]);
}

#[test]
fn an_insert_is_aborted(rt: HostRuntime) {
    let found = Found {
        value: None,
        head: 2,
        status: (166, 3),
    };
    stalled(&rt, &[], &[insert(1, 10)], false, &found, &[(3, 30)]);
}

#[test]
fn an_insert_that_is_ready_is_committed(rt: HostRuntime) {
    let found = Found {
        value: Some(10),
        head: (4 << 32) + 2,
        status: (166, 2),
    };
    let end = [(1, 10), (3, 30)];
    stalled(&rt, &[], &[insert(1, 10)], true, &found, &end);
}

#[test]
fn a_look_that_still_holds_is_committed(rt: HostRuntime) {
    let found = Found {
        value: Some(10),
        head: (4 << 32) + 2,
        status: (166, 6),
    };
    let end = [(1, 10), (3, 30)];
    stalled(&rt, &[], &[get(2), insert(1, 10)], true, &found, &end);
}

// A transaction looks at key 2, another inserts it, and the first one inserts key 1 and is left
// ready.
#[test]
fn a_look_that_was_overtaken_is_aborted(rt: HostRuntime) {
    let (store, mut a, mut b) = divided(&rt, &[]);
    let script = Script {
        tag: 7,
        before: &[get(2)],
        between: Some((insert(2, 20), Reply::Flag(true))),
        words: &[],
        after: &[insert(1, 10)],
        way: Way::LeaveReady,
    };
    let want = [Ok(Reply::Value(None)), Ok(Reply::Flag(true))];
    overlap(
        &rt,
        &store,
        &mut a.pass,
        &mut b.pass,
        &script,
        commits(&want),
    );
    let found = Found {
        value: None,
        head: 2,
        status: (166, 7),
    };
    looked(&rt, store, a, b, &found, &[(2, 20), (3, 30)]);
}

#[test]
fn a_remove_that_is_ready_is_committed(rt: HostRuntime) {
    let found = Found {
        value: None,
        head: 2,
        status: (169, 2),
    };
    stalled(&rt, &[(1, 10)], &[remove(1)], true, &found, &[(3, 30)]);
}

// Leaves an insert of one pass that holds all lanes: what is left at the end.
fn left_alone<R: Abort + AllocGlobal>(rt: &R, ready: bool, end: &[(u64, u64)]) {
    let (store, mut pass) = started(rt, &[]);
    left(rt, &store, &mut pass.pass, &[insert(1, 10)], ready);
    closes_with(rt, store, pass, end);
}

#[test]
fn closing_settles_what_was_left(rt: HostRuntime) {
    left_alone(&rt, false, &[]);
    left_alone(&rt, true, &[(1, 10)]);
}

// The next transaction looks at key 1 and inserts it. In between another pass sees the head of that
// key's bucket, and the word of the status. At last it sees the head after the end.
#[test]
fn the_next_transaction_of_the_lane_settles_it(rt: HostRuntime) {
    let (store, mut a, mut b) = divided(&rt, &[]);
    left(&rt, &store, &mut a.pass, &[insert(1, 10)], false);
    let script = Script {
        tag: 8,
        before: &[get(1)],
        between: None,
        words: &[(2, 2), (166, 1024)],
        after: &[insert(1, 11)],
        way: Way::Commit,
    };
    let want = [Ok(Reply::Value(None)), Ok(Reply::Flag(true))];
    overlap(
        &rt,
        &store,
        &mut a.pass,
        &mut b.pass,
        &script,
        commits(&want),
    );
    show(&rt, &store, &mut b.pass, &[(2, (6 << 32) + 4)]);
    ends_with(&rt, store, a, b, &[(1, 11), (3, 30)]);
}

#[test]
fn the_next_transaction_of_the_lane_commits_it(rt: HostRuntime) {
    let (store, mut a, b) = divided(&rt, &[]);
    left(&rt, &store, &mut a.pass, &[insert(1, 10)], true);
    let found = Reply::Value(Some(10));
    replies(&rt, &store, &mut a.pass, get(1), found);
    ends_with(&rt, store, a, b, &[(1, 10), (3, 30)]);
}
