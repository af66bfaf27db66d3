//! Steps of one pass on a dispenser of tickets: loads of its word, and exchanges that all win.

ghost use Rattle.std.specs.Prelude.{◌+◌, ◌<◌, ◌≤◌, IfOk};
ghost use Rattle.md_words.specs.Layout.{words_of};
ghost use Rattle.md_rule.specs.Views.{IsOf};

use example_cell::CellTheory;
use example_tickets::{dispenser, renew, ticket_word};
use md_rule::{Field, Pass};
use md_words::{Content, Shape};
use std::alloc::{AllocError, Global};

/// The most exchanges that may be asked for: each raises the word's count by 2.
pub(crate) const MOST: u32 = 2_000_000_000;

/// Loads the word so many times, rounded down to a multiple of 8: all the bits that were found.
pub(crate) fn loads(alloc: Global, shape: Shape, turns: u32) -> Result<u64, AllocError> {
    let (field, pass) = dispenser(alloc, shape)?;
    Ok(loaded(&field, pass, turns))
}

/// Exchanges the word so many times, rounded down to a multiple of 4, each time from what the last
/// exchange left: how many won.
pub(crate) fn exchanges(alloc: Global, shape: Shape, turns: u32) -> Result<u32, AllocError>
    requires { turns ≤ MOST }
    ensures { IfOk result (λ won. won ≤ turns) }
{
    let (field, pass) = dispenser(alloc, shape)?;
    Ok(exchanged(&field, pass, turns))
}

fn loaded(field: &Field<CellTheory>, mut pass: Pass<CellTheory>, turns: u32) -> u64
    requires { IsOf pass field.now }
{
    let word = ticket_word(field);
    let mut seen = 0;
    for turn in 0..turns / 8 {
        let _ = turn;
        seen |= loaded_eight_times(field, &mut pass, word);
    }
    seen
}

// Eight loads a turn: the loop's own count costs as much as a load.
fn loaded_eight_times(field: &Field<CellTheory>, pass: &mut Pass<CellTheory>, word: u32) -> u64
    requires { IsOf pass.old field.now × (word < words_of field.now.origin.shape) }
    ensures { IsOf pass.new field.now }
{
    let a = pass.load(field, word) | pass.load(field, word);
    let b = pass.load(field, word) | pass.load(field, word);
    let c = pass.load(field, word) | pass.load(field, word);
    let d = pass.load(field, word) | pass.load(field, word);
    a | b | c | d
}

fn exchanged(field: &Field<CellTheory>, mut pass: Pass<CellTheory>, turns: u32) -> u32
    requires field { IsOf pass field.now }
    requires turns { turns ≤ MOST }
    ensures { result ≤ turns }
{
    let mut won = 0;
    for turn in 0..turns / 4 {
        won += exchanged_four_times(field, &mut pass, 4 * turn);
    }
    won
}

// Four exchanges a turn: how many won.
fn exchanged_four_times(field: &Field<CellTheory>, pass: &mut Pass<CellTheory>, first: u32) -> u32
    requires field { IsOf pass.old field.now }
    requires room { first + 3 ≤ MOST }
    ensures field { IsOf pass.new field.now }
    ensures few { result ≤ 4 }
{
    let a = exchanged_once(field, pass, first) + exchanged_once(field, pass, first + 1);
    let b = exchanged_once(field, pass, first + 2) + exchanged_once(field, pass, first + 3);
    a + b
}

// An exchange from what so many exchanges left: 1 if it won.
fn exchanged_once(field: &Field<CellTheory>, pass: &mut Pass<CellTheory>, won: u32) -> u32
    requires field { IsOf pass.old field.now }
    requires room { won ≤ MOST }
    ensures field { IsOf pass.new field.now }
    ensures few { result ≤ 1 }
{
    let from = Content {
        value: 0,
        count: 2 * won,
    };
    u32::from(renew(field, pass, from).is_ok())
}
