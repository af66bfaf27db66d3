//! Threads take tickets at once.

ghost use Rattle.std.specs.Prelude.{◌≡◌, ◌≤◌};
ghost use Rattle.md_rule.specs.Views.{IsOf};

use super::{blank, join_one, part_of, same};
use example_cell::CellTheory;
use example_tickets::{take_ticket, ticket_word};
use md_rule::{Field, Pass};
use md_words::{Content, Shape};
use std::thread::{Threads, join};

const TURNS: u32 = 1000;

// What a thread does with a pass of its own: how many tickets it took. Each is higher than the one
// before.
fn taken(
    field: &Field<CellTheory>,
    mut pass: Pass<CellTheory>,
    turns: u32,
) -> (u32, Pass<CellTheory>)
    requires { IsOf pass field.now }
    ensures pass { IsOf result.1 field.now }
    ensures few { result.0 ≤ turns }
{
    let mut taken = 0;
    let mut next = 0;
    for turn in 0..turns {
        let _ = turn;
        if let Some(ticket) = take_ticket(field, &mut pass) {
            prove!(next <= ticket);
            next = ticket + 2;
            taken += 1;
        }
    }
    (taken, pass)
}

// Two threads take tickets, and their passes are joined.
fn taken_by_two<R: Threads + Sync>(
    rt: &R,
    field: &Field<CellTheory>,
    one: Pass<CellTheory>,
    other: Pass<CellTheory>,
) -> (u32, Pass<CellTheory>)
    requires one { IsOf one field.now }
    requires other { IsOf other field.now }
    ensures pass { IsOf result.1 field.now }
    ensures few { result.0 ≤ 2000 }
{
    let ((first, mut pass), (second, rest)) = join(
        rt,
        || taken(field, one, TURNS),
        || taken(field, other, TURNS),
    );
    join_one(field, &mut pass, rest);
    (first + second, pass)
}

// Four threads take tickets, and their passes are joined.
fn taken_by_four<R: Threads + Sync>(
    rt: &R,
    field: &Field<CellTheory>,
    a: Pass<CellTheory>,
    b: Pass<CellTheory>,
    c: Pass<CellTheory>,
    d: Pass<CellTheory>,
) -> (u32, Pass<CellTheory>)
    requires a { IsOf a field.now }
    requires b { IsOf b field.now }
    requires c { IsOf c field.now }
    requires d { IsOf d field.now }
    ensures pass { IsOf result.1 field.now }
    ensures few { result.0 ≤ 4000 }
{
    let ((first, mut pass), (second, rest)) = join(
        rt,
        move || -> (u32, Pass<CellTheory>)
            requires { IsOf a field.now × IsOf b field.now }
            ensures pass { IsOf result.1 field.entry.now }
            ensures few { result.0 ≤ 2000 }
        { taken_by_two(rt, field, a, b) },
        move || -> (u32, Pass<CellTheory>)
            requires { IsOf c field.now × IsOf d field.now }
            ensures pass { IsOf result.1 field.entry.now }
            ensures few { result.0 ≤ 2000 }
        { taken_by_two(rt, field, c, d) },
    );
    join_one(field, &mut pass, rest);
    (first + second, pass)
}

// The count of the word, and whether the pass has all lanes.
fn count_and_lanes(field: &Field<CellTheory>, pass: &mut Pass<CellTheory>) -> (u32, bool)
    requires { IsOf pass.old field.now }
{
    let last = pass.load(field, ticket_word(field));
    (Content::of(last).count, pass.holds_all(field))
}

#[test]
fn a_pass_alone_takes_a_ticket_at_each_turn(rt: HostRuntime) {
    let (field, pass) = blank(&rt, Shape::new(1, 1, 0, 1, 1, 1, 0));
    let (taken, mut pass) = taken(&field, pass, TURNS);
    let found = (taken, count_and_lanes(&field, &mut pass));
    same(&rt, &found, &(TURNS, (2 * TURNS, true)));
}

#[test]
fn two_threads_take_tickets_at_once(rt: HostRuntime) {
    let (field, mut one) = blank(&rt, Shape::new(2, 1, 0, 1, 1, 1, 0));
    let other = part_of(&rt, &field, &mut one);
    let (taken, mut pass) = taken_by_two(&rt, &field, one, other);
    same(&rt, &count_and_lanes(&field, &mut pass), &(2 * taken, true));
}

#[test]
fn four_threads_take_tickets_at_once(rt: HostRuntime) {
    let (field, mut a) = blank(&rt, Shape::new(4, 1, 0, 1, 1, 1, 0));
    let mut c = part_of(&rt, &field, &mut a);
    let b = part_of(&rt, &field, &mut a);
    let d = part_of(&rt, &field, &mut c);
    let (taken, mut pass) = taken_by_four(&rt, &field, a, b, c, d);
    same(&rt, &count_and_lanes(&field, &mut pass), &(2 * taken, true));
}
