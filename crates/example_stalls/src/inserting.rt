//! A transaction that inserts a value into the cell, and goes as far as it is told.

ghost use Rattle.std.specs.Prelude.{◌≡◌, ◌<◌, ◌≤◌, ◌∷◌, ℕ, IfNone, IfSome, None, Some};
ghost use Rattle.std.specs.Prelude.{[], false, true};
ghost use Rattle.md_words.specs.declared.status.Status.TheVariants.{InProg};
ghost use Rattle.md_words.specs.Content.{is_even, word_of};
ghost use Rattle.md_words.specs.Layout.{desc_count};
ghost use Rattle.md_words.specs.Status.{status_word};
ghost use Rattle.md_machine.specs.declared.step.Step.{Step};
ghost use Rattle.md_machine.specs.declared.step.TheConstants.{LAST_COUNT};
ghost use Rattle.md_machine.specs.events.Decide.{SinceStatus};
ghost use Rattle.md_rule.specs.Views.{IsOf};
ghost use Rattle.example_stalls.specs.Inserting.{CarriesOut, HasInserted, HasNoInstall, Inserts};
ghost use Rattle.example_stalls.specs.Inserting.{IsTried};
ghost use Rattle.example_stalls.specs.Inserting.{Loses, MakesCommit, MakesReady, MayInsert, Puts};
ghost use Rattle.example_stalls.specs.Inserting.{inserted};
ghost use Rattle.example_stalls.specs.Stalled.{TakesTry};

use crate::stalling::{begin, put, store_slot};
use example_cell::CellTheory;
use md_history::{Op, Reply};
use md_rule::{Field, Pass};
use md_words::{Content, Status, StatusWord};
use std::marker::Brand;
use std::snapshot::Snapshot;

// Inserts a value into a cell that has none, as an operation of a transaction, which is in hand
// then. Its descriptor; None if no lane has its first attempt, or if the word doesn't hold the
// content. Then nothing is in hand.
fn operate(
    field: &Field<CellTheory>,
    pass: &mut Pass<CellTheory>,
    found: Content,
    value: u32,
) -> Option<u32>
    requires field { IsOf pass.old field.now }
    requires idle { pass.old.view.hand ≡ None }
    requires may { MayInsert found value }
    ensures field { IsOf pass.new field.now }
    ensures some { IfSome result (λ desc. Inserts field.now.origin.shape desc (word_of found) value
        pass.new.view) }
    ensures puts { IfSome result (λ desc. (act : Step) × Puts field.now.origin.shape desc
        (word_of found) value true (act ∷ []) pass.old.view pass.new.view) }
    ensures idle { IfNone result (pass.new.view.hand ≡ None) }
    ensures none { IfNone result (HasNoInstall field.now.origin.shape (word_of found) value
        pass.old pass.new) }
    ensures shares { TakesTry pass.old pass.new.shares }
{
    let Some(desc) = begin(field, pass) else {
        return None;
    };
    pass.mark_start(field);
    store_slot(field, pass, desc, found, value + 1);
    if !put(field, pass, desc, found) {
        pass.mark_leave(field);
        return None;
    }
    let insert = Op::Insert {
        map: 0,
        key: 0,
        value: value as u64,
    };
    pass.mark_act(field, insert, Reply::Flag(true));
    Some(desc)
}

// The status of a lane's first attempt, without reads.
fn first_status(status: Status) -> u64
    ensures { result ≡ status_word status 0 0 }
{
    StatusWord {
        status,
        reads: 0,
        serial: 0,
    }
    .word()
}

// Makes the transaction in hand ready. Whether that won.
fn enter(field: &Field<CellTheory>, pass: &mut Pass<CellTheory>, desc: u32) -> bool
    requires field { IsOf pass.old field.now }
    requires inserted { HasInserted field.now.origin.shape desc pass.old.view }
    ensures same { pass.new ≡ record pass.old { view = pass.new.view } }
    ensures exists { desc < desc_count field.now.origin.shape }
    ensures since { result ≡ true → SinceStatus field.now.origin.shape pass.new.view desc
        (status_word InProg 0 0) }
    ensures readies { (value : ℕ) → pass.old.view.hand ≡ Some (inserted desc value)
        → MakesReady field.now.origin.shape desc value result pass.old.view pass.new.view }
{
    let unready = first_status(Status::InPrep);
    match pass.ready::<Brand, _>(field, desc, unready, 0, Snapshot::of(&())) {
        Ok(()) => true,
        Err(_) => false,
    }
}

// Commits the attempt, which has no reads. Whether that won.
fn commit(field: &Field<CellTheory>, pass: &mut Pass<CellTheory>, desc: u32) -> bool
    requires field { IsOf pass.old field.now }
    requires exists { desc < desc_count field.now.origin.shape }
    requires since { SinceStatus field.now.origin.shape pass.old.view desc
        (status_word InProg 0 0) }
    ensures same { pass.new ≡ record pass.old { view = pass.new.view } }
    ensures commits { MakesCommit field.now.origin.shape desc result pass.old.view pass.new.view }
{
    pass.commit(field, desc, first_status(Status::InProg))
        .is_ok()
}

/// A transaction of a lane's first attempt inserts a value into a cell that has none, becomes
/// ready, and is committed if `decides` says so. It is left there, with its descriptor in the word.
/// The content has an even count that is at most `LAST_COUNT`, and the pass has nothing in hand,
/// before and afterwards.
///
/// The answer says whether each step won. Then the attempt joined the history with this insert, and
/// its status was changed to in progress, and to committed if `decides` says so.
///
/// It is false without a step if the content has a value, if `value` is the largest `u32`, if the
/// lowest lane that has an attempt left has begun one before, or if no lane has one left. Otherwise
/// it is false only if the word didn't hold `found`, or if the attempt no longer had the status
/// that a step expects: in preparation to become ready, and in progress to be committed.
pub fn insert(
    field: &Field<CellTheory>,
    pass: &mut Pass<CellTheory>,
    found: Content,
    value: u32,
    decides: bool,
) -> bool
    requires field { IsOf pass.old field.now }
    requires idle { pass.old.view.hand ≡ None }
    requires even { is_even found.count ≡ true }
    requires room { found.count ≤ LAST_COUNT }
    ensures field { IsOf pass.new field.now }
    ensures idle { pass.new.view.hand ≡ None }
    ensures refused { ¬ IsTried found value → (result ≡ false) × (pass.new ≡ pass.old) }
    ensures won { result ≡ true → CarriesOut field.now.origin.shape (word_of found) value decides
        true pass.old.view pass.new.view }
    ensures lost { IsTried found value → result ≡ false → Loses field.now.origin.shape
        (word_of found) value decides pass.old pass.new }
    ensures shares { IsTried found value → TakesTry pass.old pass.new.shares }
{
    if found.value != 0 || value == u32::MAX {
        return false;
    }
    let Some(desc) = operate(field, pass, found, value) else {
        return false;
    };
    let mut won = enter(field, pass, desc);
    if won && decides {
        won = commit(field, pass, desc);
    }
    pass.mark_leave(field);
    won
}
