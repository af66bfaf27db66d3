//! A transaction that installs one slot, and stalls there.

ghost use Rattle.std.specs.Prelude.{◌≡◌, ◌≤◌, IfNone, IfSome, None, true};
ghost use Rattle.md_words.specs.Content.{is_even, word_of};
ghost use Rattle.md_machine.specs.declared.step.TheConstants.{LAST_COUNT};
ghost use Rattle.md_rule.specs.Views.{IsOf};
ghost use Rattle.example_stalls.specs.Stalled.{AddsChange, Begins, HasFirst, HasNoFirst};
ghost use Rattle.example_stalls.specs.Stalled.{HoldsFirstSlot, OnlyShare, TakesTry, TakesTryOf};
ghost use Rattle.example_stalls.specs.Stalled.{PutsIn, Stalls, StoresSlot, TakesFirst};

use example_cell::CellTheory;
use example_tickets::ticket_word;
use md_arena::take_descriptor;
use md_help::kept;
use md_rule::{Field, Pass};
use md_words::{Content, Spot};

/// Begins a transaction that writes the cell's word, installs its descriptor there, and leaves it
/// so. `found` is the content that the install expects: its count is even and at most
/// `LAST_COUNT`. `value` is what the word would stand for if the transaction were committed. The
/// pass has nothing in hand, before and afterwards.
///
/// The answer says whether the install won, that is, whether the word held `found`. It is `None`,
/// without a step, only if the lowest lane that has an attempt left has begun one before, or if no
/// lane has one left. Otherwise it takes six steps, whatever others do. That lane has begun one more
/// attempt afterwards, also after `None`, and the share of every other lane stays.
pub fn stall(
    field: &Field<CellTheory>,
    pass: &mut Pass<CellTheory>,
    found: Content,
    value: u32,
) -> Option<bool>
    requires field { IsOf pass.old field.now }
    requires idle { pass.old.view.hand ≡ None }
    requires even { is_even found.count ≡ true }
    requires room { found.count ≤ LAST_COUNT }
    ensures field { IsOf pass.new field.now }
    ensures idle { pass.new.view.hand ≡ None }
    ensures some { IfSome result (λ won. Stalls field.now.origin.shape (word_of found) value won
        pass.old.view pass.new.view) }
    ensures none { IfNone result (HasNoFirst pass.old × (pass.new.view ≡ pass.old.view)) }
    ensures shares { TakesTry pass.old pass.new.shares }
{
    let Some(desc) = begin(field, pass) else {
        return None;
    };
    store_slot(field, pass, desc, found, value);
    let won = put(field, pass, desc, found);
    pass.mark_leave(field);
    Some(won)
}

// Puts the first attempt of a lane in hand. Its descriptor.
pub(crate) fn begin(field: &Field<CellTheory>, pass: &mut Pass<CellTheory>) -> Option<u32>
    requires field { IsOf pass.old field.now }
    requires idle { pass.old.view.hand ≡ None }
    ensures field { IsOf pass.new field.now }
    ensures some { IfSome result (λ desc. Begins field.now.origin.shape desc pass.old.view
        pass.new.view) }
    ensures none { IfNone result (HasNoFirst pass.old × (pass.new.view ≡ pass.old.view)) }
    ensures takes { IfSome result (λ desc. TakesTryOf pass.old desc pass.new.shares) }
    ensures shares { IfNone result (TakesTry pass.old pass.new.shares) }
{
    let Some(desc) = first_attempt(pass) else {
        return None;
    };
    pass.mark_begin(field, desc, 0);
    Some(desc)
}

// Takes an attempt, and answers its descriptor if it is the lane's first one.
fn first_attempt(pass: &mut Pass<CellTheory>) -> Option<u32>
    ensures same { pass.new ≡ record pass.old { shares = pass.new.shares } }
    ensures some { IfSome result (λ desc. TakesFirst pass.old desc pass.new) }
    ensures none { IfNone result (HasNoFirst pass.old) }
    ensures takes { IfSome result (λ desc. TakesTryOf pass.old desc pass.new.shares) }
    ensures shares { IfNone result (TakesTry pass.old pass.new.shares) }
{
    kept(pass);
    let Ok(desc) = take_descriptor(pass) else {
        return None;
    };
    if pass.tries_taken(desc) != 1 {
        return None;
    }
    Some(desc)
}

// Stores the cell's word, its content and the new value in the slot 0 of the descriptor in hand.
pub(crate) fn store_slot(
    field: &Field<CellTheory>,
    pass: &mut Pass<CellTheory>,
    desc: u32,
    found: Content,
    value: u32,
)
    requires field { IsOf pass.old field.now }
    requires first { HasFirst field.now.origin.shape pass.old.view desc }
    ensures same { pass.new ≡ record pass.old { view = pass.new.view } }
    ensures first { HasFirst field.now.origin.shape pass.new.view desc }
    ensures hand { pass.new.view.hand ≡ pass.old.view.hand }
    ensures stores { StoresSlot field.now.origin.shape desc (word_of found) value pass.old.view
        pass.new.view }
{
    let word = ticket_word(field);
    pass.store(field, field.shape().slot_word(desc, 0), word as u64);
    pass.store(field, field.shape().slot_old(desc, 0), found.word());
    pass.store(field, field.shape().slot_new(desc, 0), value as u64);
}

// Installs the slot 0 of the descriptor in hand in the cell's word. Whether that won.
pub(crate) fn put(
    field: &Field<CellTheory>,
    pass: &mut Pass<CellTheory>,
    desc: u32,
    found: Content,
) -> bool
    requires field { IsOf pass.old field.now }
    requires first { HasFirst field.now.origin.shape pass.old.view desc }
    requires slot { HoldsFirstSlot field.now.origin.shape desc (word_of found) pass.old.view }
    requires even { is_even found.count ≡ true }
    requires room { found.count ≤ LAST_COUNT }
    ensures field { IsOf pass.new field.now }
    ensures shares { OnlyShare desc 0 pass.old.shares pass.new.shares }
    ensures puts { PutsIn field.now.origin.shape desc (word_of found) result pass.old.view
        pass.new.view }
    ensures hand { AddsChange field.now.origin.shape desc (word_of found) result pass.old.view
        pass.new.view }
{
    let to = Spot { desc, slot: 0 };
    match pass.install(field, ticket_word(field), found, to) {
        Ok(()) => true,
        Err(_) => false,
    }
}
