//! Transactions stall in the cell's word, and others go on: alone, and on two and four threads.

ghost use Rattle.std.specs.Prelude.{◌≡◌, ◌+◌, ◌<◌, ◌≤◌, IfSome, None, true};
ghost use Rattle.md_words.specs.Content.{is_even};
ghost use Rattle.md_words.specs.Layout.{words_of};
ghost use Rattle.md_machine.specs.declared.step.TheConstants.{LAST_COUNT};
ghost use Rattle.md_rule.specs.Views.{IsOf};

use super::{idle, same};
use example_cell::CellTheory;
use example_stalls::{Met, insert, meet, stall};
use example_tickets::{renew, ticket_word};
use md_help::{Cleared, End};
use md_machine::step::LAST_COUNT;
use md_rule::{Field, Pass};
use md_words::{Content, Shape};
use std::process::Abort;
use std::thread::{Threads, join};

const TURNS: u32 = 20000;

// Of how many turns a transaction stalls at one, as long as a lane has its first attempt.
const STALLS: u32 = 500;

// How many installs and how many plain exchanges won.
#[derive(Clone, Copy)]
struct Won {
    installs: u32,
    exchanges: u32,
}

// What a pass that has several lanes, and nothing in hand, gives when it is split.
fn half_of(
    rt: &impl Abort,
    field: &Field<CellTheory>,
    pass: &mut Pass<CellTheory>,
) -> Pass<CellTheory>
    requires field { IsOf pass.old field.now }
    requires idle { pass.old.view.hand ≡ None }
    ensures kept { IsOf pass.new field.now × (pass.new.view.hand ≡ None) }
    ensures given { IsOf result field.now × (result.view.hand ≡ None) }
{
    pass.split(field).expect(rt, "several lanes")
}

// Joins two passes that have nothing in hand.
fn join_idle(field: &Field<CellTheory>, pass: &mut Pass<CellTheory>, other: Pass<CellTheory>)
    requires field { IsOf pass.old field.now × IsOf other field.now }
    requires idle { (pass.old.view.hand ≡ None) × (other.view.hand ≡ None) }
    ensures field { IsOf pass.new field.now }
    ensures idle { pass.new.view.hand ≡ None }
{
    pass.join(field, other);
}

// The content of the word, unless a descriptor stood there, which is cleared then, or it may not be
// changed any more.
fn plain(field: &Field<CellTheory>, pass: &mut Pass<CellTheory>) -> Option<Content>
    requires field { IsOf pass.old field.now }
    requires idle { pass.old.view.hand ≡ None }
    ensures field { IsOf pass.new field.now }
    ensures idle { pass.new.view.hand ≡ None }
    ensures some { IfSome result (λ found. (is_even found.count ≡ true)
        × (found.count ≤ LAST_COUNT)) }
{
    let Met::Plain(found) = meet(field, pass) else {
        return None;
    };
    if found.count > LAST_COUNT {
        return None;
    }
    Some(found)
}

// Whether a plain exchange of the content won.
fn renewed(field: &Field<CellTheory>, pass: &mut Pass<CellTheory>, found: Content) -> bool
    requires field { IsOf pass.old field.now }
    requires idle { pass.old.view.hand ≡ None }
    requires even { is_even found.count ≡ true }
    requires room { found.count ≤ LAST_COUNT }
    ensures field { IsOf pass.new field.now }
    ensures idle { pass.new.view.hand ≡ None }
{
    renew(field, pass, found).is_ok()
}

// One turn: a descriptor that stands in the word is cleared. Else a transaction stalls there, or
// the word is exchanged.
fn turn(field: &Field<CellTheory>, pass: &mut Pass<CellTheory>, turn: u32, won: &mut Won)
    requires field { IsOf pass.old field.now }
    requires idle { pass.old.view.hand ≡ None }
    requires room { (won.old.installs ≤ turn) × (won.old.exchanges ≤ turn) }
    requires few { turn < 20000 }
    ensures field { IsOf pass.new field.now }
    ensures idle { pass.new.view.hand ≡ None }
    ensures room { (won.new.installs ≤ turn + 1) × (won.new.exchanges ≤ turn + 1) }
{
    let Some(found) = plain(field, pass) else {
        return;
    };
    if turn % STALLS == 0 {
        if let Some(true) = stall(field, pass, found, turn) {
            won.installs += 1;
        }
    } else if renewed(field, pass, found) {
        won.exchanges += 1;
    }
}

// What a thread does with a pass of its own.
fn turns(
    field: &Field<CellTheory>,
    mut pass: Pass<CellTheory>,
    count: u32,
) -> (Won, Pass<CellTheory>)
    requires field { IsOf pass field.now }
    requires idle { pass.view.hand ≡ None }
    requires few { count ≤ 20000 }
    ensures field { IsOf result.1 field.now }
    ensures idle { result.1.view.hand ≡ None }
    ensures few { (result.0.installs ≤ 20000) × (result.0.exchanges ≤ 20000) }
{
    let mut won = Won {
        installs: 0,
        exchanges: 0,
    };
    for i in 0..count {
        turn(field, &mut pass, i, &mut won);
    }
    (won, pass)
}

// Two threads take their turns, and their passes are joined.
fn turns_of_two<R: Threads + Sync>(
    rt: &R,
    field: &Field<CellTheory>,
    one: Pass<CellTheory>,
    other: Pass<CellTheory>,
) -> (Won, Pass<CellTheory>)
    requires one { IsOf one field.now × (one.view.hand ≡ None) }
    requires other { IsOf other field.now × (other.view.hand ≡ None) }
    ensures field { IsOf result.1 field.now }
    ensures idle { result.1.view.hand ≡ None }
    ensures few { (result.0.installs ≤ 40000) × (result.0.exchanges ≤ 40000) }
{
    let ((first, mut pass), (second, rest)) = join(
        rt,
        || turns(field, one, TURNS),
        || turns(field, other, TURNS),
    );
    join_idle(field, &mut pass, rest);
    let won = Won {
        installs: first.installs + second.installs,
        exchanges: first.exchanges + second.exchanges,
    };
    (won, pass)
}

// Four threads take their turns, and their passes are joined.
fn turns_of_four<R: Threads + Sync>(
    rt: &R,
    field: &Field<CellTheory>,
    a: Pass<CellTheory>,
    b: Pass<CellTheory>,
    c: Pass<CellTheory>,
    d: Pass<CellTheory>,
) -> (Won, Pass<CellTheory>)
    requires a { IsOf a field.now × (a.view.hand ≡ None) }
    requires b { IsOf b field.now × (b.view.hand ≡ None) }
    requires c { IsOf c field.now × (c.view.hand ≡ None) }
    requires d { IsOf d field.now × (d.view.hand ≡ None) }
    ensures field { IsOf result.1 field.now }
    ensures idle { result.1.view.hand ≡ None }
    ensures few { (result.0.installs ≤ 80000) × (result.0.exchanges ≤ 80000) }
{
    let ((first, mut pass), (second, rest)) = join(
        rt,
        move || -> (Won, Pass<CellTheory>)
            requires a { IsOf a field.now × (a.view.hand ≡ None) }
            requires b { IsOf b field.now × (b.view.hand ≡ None) }
            ensures field { IsOf result.1 field.entry.now }
            ensures idle { result.1.view.hand ≡ None }
            ensures few { (result.0.installs ≤ 40000) × (result.0.exchanges ≤ 40000) }
        { turns_of_two(rt, field, a, b) },
        move || -> (Won, Pass<CellTheory>)
            requires c { IsOf c field.now × (c.view.hand ≡ None) }
            requires d { IsOf d field.now × (d.view.hand ≡ None) }
            ensures field { IsOf result.1 field.entry.now }
            ensures idle { result.1.view.hand ≡ None }
            ensures few { (result.0.installs ≤ 40000) × (result.0.exchanges ≤ 40000) }
        { turns_of_two(rt, field, c, d) },
    );
    join_idle(field, &mut pass, rest);
    let won = Won {
        installs: first.installs + second.installs,
        exchanges: first.exchanges + second.exchanges,
    };
    (won, pass)
}

// What stands in the word after whatever stood there was cleared.
fn left(field: &Field<CellTheory>, pass: &mut Pass<CellTheory>) -> Met
    requires field { IsOf pass.old field.now }
    requires idle { pass.old.view.hand ≡ None }
    ensures field { IsOf pass.new field.now }
{
    match meet(field, pass) {
        Met::Plain(found) => Met::Plain(found),
        Met::Cleared(_) => meet(field, pass),
    }
}

// How many descriptors have an aborted attempt. The others' were never met by anybody.
fn aborted(field: &Field<CellTheory>, pass: &mut Pass<CellTheory>) -> Option<u32>
    requires field { IsOf pass.old field.now }
    ensures field { IsOf pass.new field.now }
{
    let mut aborted = 0;
    for lane in 0..field.shape().lanes {
        let desc = field.shape().desc_of(lane);
        match pass.load(field, field.shape().status(desc)) {
            0 => {}
            3 => aborted += 1,
            _ => return None,
        }
    }
    Some(aborted)
}

// The words of the slot 0 of the descriptor 0 and the cell's word, and what they hold.
fn slot_and_cell(field: &Field<CellTheory>, pass: &mut Pass<CellTheory>) -> [(u32, u64); 4]
    requires field { IsOf pass.old field.now }
    ensures same { pass.new ≡ record pass.old { view = pass.new.view } }
{
    let desc = field.shape().desc_of(0);
    let word = field.shape().slot_word(desc, 0);
    let old = field.shape().slot_old(desc, 0);
    let new = field.shape().slot_new(desc, 0);
    let cell = ticket_word(field);
    [
        (word, pass.load(field, word)),
        (old, pass.load(field, old)),
        (new, pass.load(field, new)),
        (cell, pass.load(field, cell)),
    ]
}

// A transaction stalls in a plain word. Whether its install won, and what its slot and the word
// hold then.
fn stalled(
    field: &Field<CellTheory>,
    pass: &mut Pass<CellTheory>,
    value: u32,
) -> Option<(bool, [(u32, u64); 4])>
    requires field { IsOf pass.old field.now }
    requires idle { pass.old.view.hand ≡ None }
    ensures field { IsOf pass.new field.now }
{
    let found = plain(field, pass)?;
    let won = stall(field, pass, found, value)?;
    Some((won, slot_and_cell(field, pass)))
}

// A transaction inserts a value into a plain word, and is committed if `decides` says so. Whether
// each step won.
fn inserted(
    field: &Field<CellTheory>,
    pass: &mut Pass<CellTheory>,
    value: u32,
    decides: bool,
) -> Option<bool>
    requires field { IsOf pass.old field.now }
    requires idle { pass.old.view.hand ≡ None }
    ensures field { IsOf pass.new field.now }
    ensures idle { pass.new.view.hand ≡ None }
{
    let found = plain(field, pass)?;
    Some(insert(field, pass, found, value, decides))
}

// A word and what it holds.
fn held(field: &Field<CellTheory>, pass: &mut Pass<CellTheory>, word: u32) -> (u32, u64)
    requires field { IsOf pass.old field.now × (word < words_of field.now.origin.shape) }
    requires idle { pass.old.view.hand ≡ None }
    ensures field { IsOf pass.new field.now }
    ensures idle { pass.new.view.hand ≡ None }
{
    (word, pass.load(field, word))
}

// The status of the descriptor 0 and the cell's word, and what they hold.
fn status_and_cell(field: &Field<CellTheory>, pass: &mut Pass<CellTheory>) -> [(u32, u64); 2]
    requires field { IsOf pass.old field.now }
    requires idle { pass.old.view.hand ≡ None }
    ensures field { IsOf pass.new field.now }
    ensures idle { pass.new.view.hand ≡ None }
{
    let status = field.shape().status(field.shape().desc_of(0));
    [
        held(field, pass, status),
        held(field, pass, ticket_word(field)),
    ]
}

// The word has been changed twice for each install and each exchange that won, and each transaction
// whose install won is aborted.
fn assert_left(rt: &impl Abort, field: &Field<CellTheory>, pass: &mut Pass<CellTheory>, won: Won)
    requires field { IsOf pass.old field.now }
    requires idle { pass.old.view.hand ≡ None }
    requires few { (won.installs ≤ 80000) × (won.exchanges ≤ 80000) }
{
    let count = 2 * (won.installs + won.exchanges);
    let found = (left(field, pass), aborted(field, pass));
    let plain = Met::Plain(Content { value: 0, count });
    same(rt, &found, &(plain, Some(won.installs)));
}

#[test]
fn a_transaction_that_stalls_is_aborted_and_taken_out(rt: HostRuntime) {
    let (field, mut a) = idle(&rt, Shape::new(2, 16, 1, 4, 1, 64, 1));
    let mut b = half_of(&rt, &field, &mut a);
    let held = [(423, 1), (424, 0), (425, 7), (1, 1)];
    same(&rt, &stalled(&field, &mut a, 7), &Some((true, held)));
    let cleared = Cleared {
        end: End::Aborted,
        left: 2,
    };
    let found = (meet(&field, &mut b), status_and_cell(&field, &mut b));
    same(&rt, &found, &(Met::Cleared(cleared), [(166, 3), (1, 2)]));
}

#[test]
fn a_transaction_is_committed_by_its_pass(rt: HostRuntime) {
    let (field, mut a) = idle(&rt, Shape::new(2, 16, 1, 4, 1, 64, 1));
    let after = Content { value: 7, count: 2 };
    let cleared = Cleared {
        end: End::Committed,
        left: after.word(),
    };
    let found = (
        inserted(&field, &mut a, 6, true),
        status_and_cell(&field, &mut a),
        [meet(&field, &mut a), meet(&field, &mut a)],
    );
    let met = [Met::Cleared(cleared), Met::Plain(after)];
    same(&rt, &found, &(Some(true), [(166, 2), (1, 1)], met));
}

#[test]
fn another_pass_commits_a_ready_transaction(rt: HostRuntime) {
    let (field, mut a) = idle(&rt, Shape::new(2, 16, 1, 4, 1, 64, 1));
    let mut b = half_of(&rt, &field, &mut a);
    let after = Content { value: 7, count: 2 };
    let cleared = Cleared {
        end: End::Committed,
        left: after.word(),
    };
    let found = (
        inserted(&field, &mut a, 6, false),
        status_and_cell(&field, &mut b),
        meet(&field, &mut b),
        status_and_cell(&field, &mut b),
        meet(&field, &mut a),
    );
    let want = (
        Some(true),
        [(166, 1), (1, 1)],
        Met::Cleared(cleared),
        [(166, 2), (1, after.word())],
        Met::Plain(after),
    );
    same(&rt, &found, &want);
}

#[test]
fn a_pass_alone_clears_each_stalled_transaction(rt: HostRuntime) {
    let (field, pass) = idle(&rt, Shape::new(4, 1, 0, 1, 1, 1, 0));
    let (won, mut pass) = turns(&field, pass, TURNS);
    same(&rt, &won.installs, &4);
    assert_left(&rt, &field, &mut pass, won);
}

#[test]
fn two_threads_clear_stalled_transactions(rt: HostRuntime) {
    let (field, mut one) = idle(&rt, Shape::new(64, 1, 0, 1, 1, 1, 0));
    let other = half_of(&rt, &field, &mut one);
    let (won, mut pass) = turns_of_two(&rt, &field, one, other);
    assert_left(&rt, &field, &mut pass, won);
}

#[test]
fn four_threads_clear_stalled_transactions(rt: HostRuntime) {
    let (field, mut a) = idle(&rt, Shape::new(64, 1, 0, 1, 1, 1, 0));
    let mut c = half_of(&rt, &field, &mut a);
    let b = half_of(&rt, &field, &mut a);
    let d = half_of(&rt, &field, &mut c);
    let (won, mut pass) = turns_of_four(&rt, &field, a, b, c, d);
    assert_left(&rt, &field, &mut pass, won);
}
