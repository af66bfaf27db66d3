//! Two transactions whose operations alternate, with the words that they leave.

use super::*;

#[test]
fn a_look_aborts_an_insert(rt: HostRuntime) {
    let (store, mut a, mut b) = divided(&rt, &[]);
    let script = Script {
        tag: 1,
        before: &[insert(1, 10)],
        between: Some((get(1), Reply::Value(None))),
        words: &[(2, 2)],
        after: &[],
        way: Way::Commit,
    };
    let lost = Stop::Conflict(Shown {
        word: 166,
        was: 0,
        now: 3,
    });
    let want = [Ok(Reply::Flag(true))];
    overlap(
        &rt,
        &store,
        &mut a.pass,
        &mut b.pass,
        &script,
        fails(&want, lost),
    );
    ends_with(&rt, store, a, b, &[(3, 30)]);
}

#[test]
fn an_aborted_insert_meets_its_word(rt: HostRuntime) {
    let (store, mut a, mut b) = divided(&rt, &[]);
    let script = Script {
        tag: 1,
        before: &[insert(1, 10)],
        between: Some((get(1), Reply::Value(None))),
        words: &[],
        after: &[get(1), get(2)],
        way: Way::Commit,
    };
    let lost = Stop::Conflict(Shown {
        word: 2,
        was: 1,
        now: 2,
    });
    let want = [Ok(Reply::Flag(true)), Err(lost), Err(lost)];
    overlap(
        &rt,
        &store,
        &mut a.pass,
        &mut b.pass,
        &script,
        fails(&want, lost),
    );
    ends_with(&rt, store, a, b, &[(3, 30)]);
}

#[test]
fn an_insert_overtakes_a_look(rt: HostRuntime) {
    let (store, mut a, mut b) = divided(&rt, &[]);
    let script = Script {
        tag: 1,
        before: &[get(1)],
        between: Some((insert(1, 10), Reply::Flag(true))),
        words: &[],
        after: &[],
        way: Way::Commit,
    };
    let moved = Stop::Conflict(Shown {
        word: 2,
        was: 0,
        now: (36 << 32) + 2,
    });
    let want = [Ok(Reply::Value(None))];
    overlap(
        &rt,
        &store,
        &mut a.pass,
        &mut b.pass,
        &script,
        fails(&want, moved),
    );
    show(&rt, &store, &mut a.pass, &[(166, 7)]);
    ends_with(&rt, store, a, b, &[(1, 10), (3, 30)]);
}

#[test]
fn one_transaction_sees_what_it_did(rt: HostRuntime) {
    let (store, mut pass) = started(&rt, &[(5, 6)]);
    let pop = Op::Dequeue { queue: 0 };
    let ops = [remove(5), insert(5, 7), enqueue(1), enqueue(2), pop, pop];
    let want = [
        Ok(Reply::Value(Some(6))),
        Ok(Reply::Flag(true)),
        Ok(Reply::Nothing),
        Ok(Reply::Nothing),
        Ok(Reply::Value(Some(1))),
        Ok(Reply::Value(Some(2))),
    ];
    are_told(&rt, &store, &mut pass.pass, &ops, commits(&want));
    closes_with(&rt, store, pass, &[(5, 7)]);
}

#[test]
fn a_line_shows_what_was_enqueued(rt: HostRuntime) {
    let (store, mut pass) = started(&rt, &[]);
    let (one, twelve) = (Op::Line { queue: 0, n: 1 }, Op::Line { queue: 0, n: 12 });
    let ops = [enqueue(1), enqueue(2), one, twelve];
    let short = Line {
        count: 1,
        values: [1, 0, 0, 0, 0, 0, 0, 0, 0, 0, 0, 0],
    };
    let long = Line {
        count: 2,
        values: [1, 2, 0, 0, 0, 0, 0, 0, 0, 0, 0, 0],
    };
    let want = [
        Ok(Reply::Nothing),
        Ok(Reply::Nothing),
        Ok(Reply::Line(short)),
        Ok(Reply::Line(long)),
    ];
    are_told(&rt, &store, &mut pass.pass, &ops, commits(&want));
}
