//! The three ways in which a step reaches a word: in the table, or among the private words of a
//! pass. Each call picks what it tells, from what it is about, which has no bytes. They take the
//! seat and the private words alone: what a pass keeps of its lanes is shown by the call that has
//! it.

ghost use Rattle.std.specs.Prelude.{◌≡◌, ◌≢◌, ◌==◌, ◌<◌, ℕ, MatchResult, length, slice_index};
ghost use Rattle.std.specs.Prelude.{slice_set};
ghost use prog.Atomic.{either};
ghost use Rattle.md_words.specs.Layout.{words_of};
ghost use Rattle.atomic_table.specs.Table.{State, Seen};
ghost use Rattle.md_rule.specs.declared.known.Known.{Known};
ghost use Rattle.md_rule.specs.Private.{HasPrivateWords, with_view};
ghost use Rattle.md_rule.specs.Rule.{Shows};
ghost use Rattle.md_rule.specs.Steps.{MayTell};
ghost use Rattle.md_machine.specs.Machine.{IsLive};

use crate::field::Field;
use crate::known::Known;
use crate::rule::{Following, Follows, Telling, Tells};
use atomic_table::Seat;
use md_machine::Theory;
use md_rule_lanes::{answered, exchange_private, load_private, store_private};
use std::marker::Brand;
use std::snapshot::Snapshot;

pub(crate) fn load_word<K: Telling, T: Theory, A>(
    seat: &mut Seat<(), Known>,
    private: &Option<Vec<u64>>,
    field: &Field<T>,
    word: u32,
    about: Snapshot<A>,
) -> u64
    requires field { (seat.old.table_id ≡ field.now.table)
        × (word < words_of field.now.origin.shape) }
    requires private { HasPrivateWords field.now.origin.shape private.now seat.old.me.0 }
    requires live { IsLive seat.old.me.0.view }
    requires may { MayTell T.meaning field.now.origin seat.old.me.0.view word (λ held. held)
        K.tells }
    ensures field { seat.new.table_id ≡ seat.old.table_id }
    ensures same { (seat.new.me.0.view.lanes ≡ seat.old.me.0.view.lanes)
        × (seat.new.me.1 ≡ seat.old.me.1) }
    ensures private { seat.new.me.0.private ≡ seat.old.me.0.private }
    ensures told { K.tells result seat.old.me.0.view seat.new.me.0.view }
{
    drop(about);
    match private {
        Some(words) => {
            let held = load_private(words, word);
            follow::<Brand, T, _>(seat, field, held, Snapshot::of(private));
            held
        }
        None => field.table.shared.load::<Tells<K>>(seat, word as usize),
    }
}

pub(crate) fn store_word<K: Telling, T: Theory, A>(
    seat: &mut Seat<(), Known>,
    private: &mut Option<Vec<u64>>,
    field: &Field<T>,
    word: u32,
    value: u64,
    about: Snapshot<A>,
)
    requires field { (seat.old.table_id ≡ field.now.table)
        × (word < words_of field.now.origin.shape) }
    requires private { HasPrivateWords field.now.origin.shape private.old seat.old.me.0 }
    requires live { IsLive seat.old.me.0.view }
    requires may { MayTell T.meaning field.now.origin seat.old.me.0.view word (λ _. value)
        (λ _. K.tells value) }
    ensures field { seat.new.table_id ≡ seat.old.table_id }
    ensures same { (seat.new.me.0.view.lanes ≡ seat.old.me.0.view.lanes)
        × (seat.new.me.1 ≡ seat.old.me.1) }
    ensures private { HasPrivateWords field.now.origin.shape private.new seat.new.me.0 }
    ensures told { K.tells value seat.old.me.0.view seat.new.me.0.view }
{
    drop(about);
    match private {
        Some(words) => {
            store_private(words, word, value);
            follow::<Brand, T, _>(seat, field, value, Snapshot::of(private));
        }
        None => field
            .table
            .shared
            .store::<Tells<K>>(seat, word as usize, value),
    }
}

pub(crate) fn exchange_word<K: Telling, T: Theory, A>(
    seat: &mut Seat<(), Known>,
    private: &mut Option<Vec<u64>>,
    field: &Field<T>,
    word: u32,
    from: u64,
    to: u64,
    about: Snapshot<A>,
) -> Result<(), u64>
    requires field { (seat.old.table_id ≡ field.now.table)
        × (word < words_of field.now.origin.shape) }
    requires private { HasPrivateWords field.now.origin.shape private.old seat.old.me.0 }
    requires live { IsLive seat.old.me.0.view }
    requires may { MayTell T.meaning field.now.origin seat.old.me.0.view word
        (λ found. either (found == from) to found) K.tells }
    ensures field { seat.new.table_id ≡ seat.old.table_id }
    ensures same { (seat.new.me.0.view.lanes ≡ seat.old.me.0.view.lanes)
        × (seat.new.me.1 ≡ seat.old.me.1) }
    ensures private { HasPrivateWords field.now.origin.shape private.new seat.new.me.0 }
    ensures told { MatchResult result
        (λ _. K.tells from seat.old.me.0.view seat.new.me.0.view)
        (λ found. (found ≢ from) × K.tells found seat.old.me.0.view seat.new.me.0.view) }
{
    drop(about);
    let found = match private {
        Some(words) => {
            let found = exchange_private(words, word, from, to);
            follow::<Brand, T, _>(seat, field, found, Snapshot::of(private));
            found
        }
        None => field
            .table
            .shared
            .compare_exchange::<Tells<K>>(seat, word as usize, from, to),
    };
    answered(found, from)
}

// A mark: a load of word 0.
pub(crate) fn mark<K: Telling, T: Theory, A>(
    seat: &mut Seat<(), Known>,
    private: &Option<Vec<u64>>,
    field: &Field<T>,
    about: Snapshot<A>,
)
    requires field { seat.old.table_id ≡ field.now.table }
    requires private { HasPrivateWords field.now.origin.shape private.now seat.old.me.0 }
    requires live { IsLive seat.old.me.0.view }
    requires may { MayTell T.meaning field.now.origin seat.old.me.0.view 0 (λ held. held) K.tells }
    ensures field { seat.new.table_id ≡ seat.old.table_id }
    ensures same { (seat.new.me.0.view.lanes ≡ seat.old.me.0.view.lanes)
        × (seat.new.me.1 ≡ seat.old.me.1) }
    ensures private { seat.new.me.0.private ≡ seat.old.me.0.private }
    ensures told { (held : ℕ) × K.tells held seat.old.me.0.view seat.new.me.0.view }
{
    load_word::<K, T, A>(seat, private, field, 0, about);
}

// What a pass knows changes with a step on its private words: a load of the table's only word.
fn follow<K: Following, T: Theory, A>(
    seat: &mut Seat<(), Known>,
    field: &Field<T>,
    found: u64,
    left: Snapshot<A>,
)
    requires field { seat.old.table_id ≡ field.now.table }
    requires may { (s : State (Unit {0}) Known)
        → Seen (Shows T.meaning field.now.origin) seat.old.id seat.old.me.0 s
        → (now : Known) × Shows T.meaning field.now.origin (with_view s seat.old.id now)
        × K.follows seat.old.me.0 now }
    ensures field { seat.new.table_id ≡ seat.old.table_id }
    ensures same { seat.new.me.1 ≡ seat.old.me.1 }
    ensures follows { K.follows seat.old.me.0 seat.new.me.0 }
{
    drop(left);
    field.table.shared.load::<Follows<K>>(seat, 0);
}
