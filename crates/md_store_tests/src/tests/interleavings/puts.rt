//! Values that are set, with the words that this leaves.
//!
//! Word 2 is the head of key 1's bucket. If the store starts with that key, its node is 2, and the
//! first new node of the two lanes is 3 and 19. The next words of nodes 2, 3, 4 and 19 are the
//! words 72, 75, 78 and 123.

use super::*;

// A counted word.
fn content(value: u64, count: u64) -> u64 {
    value.wrapping_shl(32).wrapping_add(count)
}

// Makes operations as one transaction of a new store that starts with these pairs. They are told
// this, and then the words have these values, and these pairs are left.
fn leaves<R: Abort + AllocGlobal>(
    rt: &R,
    start: &[(u64, u64)],
    ops: &[Op],
    told: &[Told],
    words: &[(u32, u64)],
    left: &[(u64, u64)],
) {
    let (store, mut pass) = started(rt, start);
    are_told(rt, &store, &mut pass.pass, ops, commits(told));
    show(rt, &store, &mut pass.pass, words);
    closes_with(rt, store, pass, left);
}

const ABSENT: Told = Ok(Reply::Value(None));

const TEN: Told = Ok(Reply::Value(Some(10)));

const TWENTY: Told = Ok(Reply::Value(Some(20)));

// Into an empty bucket the new node is node 2.
#[test]
fn an_absent_key_is_put(rt: HostRuntime) {
    let words = [(2, content(4, 2)), (70, 1), (71, 20), (72, content(0, 2))];
    leaves(&rt, &[], &[put(1, 20)], &[ABSENT], &words, &[(1, 20)]);
    // After a remove the bucket is empty: the head changes once, to the new node.
    let ops = [remove(1), put(1, 20)];
    let words = [(2, content(6, 2)), (72, content(1, 2)), (75, content(0, 2))];
    let start = [(1, 10)];
    leaves(&rt, &start, &ops, &[TEN, ABSENT], &words, &[(1, 20)]);
}

// The old node's next word names the new one, with a mark. Then the old node is unlinked.
#[test]
fn a_present_key_is_put(rt: HostRuntime) {
    let start = [(1, 10)];
    let words = [
        (2, content(6, 2)),
        (71, 10),
        (72, content(7, 2)),
        (73, 1),
        (74, 20),
        (75, content(0, 2)),
    ];
    leaves(&rt, &start, &[put(1, 20)], &[TEN], &words, &[(1, 20)]);
    let ops = [get(1), put(1, 20)];
    leaves(&rt, &start, &ops, &[TEN, TEN], &words, &[(1, 20)]);
    // The second put replaces the first one's node. The walk to it unlinks the first of three.
    let ops = [put(1, 20), put(1, 30)];
    let words = [
        (2, content(8, 4)),
        (72, content(7, 2)),
        (75, content(9, 4)),
        (77, 30),
        (78, content(0, 2)),
    ];
    leaves(&rt, &start, &ops, &[TEN, TWENTY], &words, &[(1, 30)]);
    // A transaction sees what it put.
    let ops = [put(1, 20), get(1), remove(1), get(1)];
    let told = [TEN, TWENTY, TWENTY, ABSENT];
    leaves(&rt, &start, &ops, &told, &[], &[]);
}

#[test]
fn a_put_aborts_a_put(rt: HostRuntime) {
    let (store, mut a, mut b) = divided(&rt, &[(1, 10)]);
    let script = Script {
        tag: 1,
        before: &[put(1, 20)],
        between: Some((put(1, 30), Reply::Value(Some(10)))),
        words: &[
            (2, content(38, 2)),
            (72, content(39, 4)),
            (123, content(0, 2)),
        ],
        after: &[],
        way: Way::Commit,
    };
    let lost = Stop::Conflict(Shown {
        word: 169,
        was: 0,
        now: 3,
    });
    let want = fails(&[TEN], lost);
    overlap(&rt, &store, &mut a.pass, &mut b.pass, &script, want);
    ends_with(&rt, store, a, b, &[(1, 30), (3, 30)]);
}

#[test]
fn a_put_follows_a_put(rt: HostRuntime) {
    let (store, mut a, mut b) = divided(&rt, &[(1, 10)]);
    let script = Script {
        tag: 1,
        before: &[],
        between: Some((put(1, 20), Reply::Value(Some(10)))),
        words: &[
            (2, content(38, 2)),
            (72, content(39, 2)),
            (123, content(0, 2)),
        ],
        after: &[put(1, 30)],
        way: Way::Commit,
    };
    let want = commits(&[TWENTY]);
    overlap(&rt, &store, &mut a.pass, &mut b.pass, &script, want);
    let words = [
        (2, content(6, 4)),
        (75, content(0, 2)),
        (123, content(7, 4)),
    ];
    show(&rt, &store, &mut b.pass, &words);
    ends_with(&rt, store, a, b, &[(1, 30), (3, 30)]);
}

// The put that was left ready is committed by the next one, which unlinks its old node.
#[test]
fn a_put_commits_a_put(rt: HostRuntime) {
    let (store, mut a, mut b) = divided(&rt, &[(1, 10)]);
    let plan = Plan {
        tag: 7,
        ops: &[put(1, 20)],
        way: Way::LeaveReady,
    };
    let mut told = Vec::new(rt.alloc());
    let end = all(&rt, &store, &mut a.pass, &plan, &mut told);
    are_same(&rt, &told, end, commits(&[TEN]));
    are_told(&rt, &store, &mut b.pass, &[put(1, 30)], commits(&[TWENTY]));
    let words = [
        (2, content(38, 4)),
        (72, content(7, 2)),
        (75, content(39, 4)),
    ];
    show(&rt, &store, &mut b.pass, &words);
    ends_with(&rt, store, a, b, &[(1, 30), (3, 30)]);
}
