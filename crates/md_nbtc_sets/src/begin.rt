//! How a transaction begins: what the lane's last transaction left standing is taken out, and the
//! lane's descriptor begins another attempt.

ghost use Rattle.std.specs.Prelude.{◌≡◌, ◌+◌, ◌<◌, ◌≤◌, ◌↔◌, ℕ, IsTrue, None, false};
ghost use Rattle.md_words.specs.Content.{is_even, spot_of, word_of};
ghost use Rattle.md_words.specs.Layout.{IsInSet, desc_count};
ghost use Rattle.md_machine.specs.declared.step.TheConstants.{LAST_COUNT};
ghost use Rattle.md_machine.specs.Own.{HasDesc};
ghost use Rattle.md_help.specs.After.{StandsInField};
ghost use Rattle.md_help.specs.Owns.{KnowsEnd};
ghost use Rattle.md_rule.specs.Kept.{IsReached};
ghost use Rattle.md_rule_lanes.specs.Shares.{share_at};
ghost use Rattle.md_rule.specs.Views.{IsOf};
ghost use Rattle.md_nbtc_law.specs.Beginning.{Empties, FindsDecided, FindsNew};
ghost use Rattle.md_nbtc_law.specs.Beginning.{PassesCount, PutsInHand, StandsOwn};
ghost use Rattle.md_nbtc_law.specs.Beginning.{HasAttempt, IsTakenLast, KeepsCounts, TakesSlot};
ghost use Rattle.md_nbtc_sets.specs.Beginning.{MayRestart};

use md_help::{End, kept, settle_one, slot_value};
use md_machine::Theory;
use md_rule::{Field, Pass};
use md_words::{Content, Status, StatusWord};

fn settled_status<T: Theory>(field: &Field<T>, pass: &mut Pass<T>, desc: u32) -> u64
    requires of { IsOf pass.old field.now }
    requires idle { pass.old.view.hand ≡ None }
    requires exists { desc < desc_count field.now.origin.shape }
    requires own { HasDesc field.now.origin.shape pass.old.view desc }
    requires reached { IsReached pass.old desc }
    ensures same { pass.new ≡ record pass.old { view = pass.new.view } }
    ensures stands { StandsInField T.meaning field.now.origin pass.new.view }
    ensures finds { FindsDecided field.now.origin.shape desc result pass.old.view pass.new.view }
{
    settle_one(field, pass, desc);
    pass.load(field, field.shape().status(desc))
}

/// Returns the status word of the descriptor of one of the pass's lanes, with its last attempt
/// decided. If this attempt is undecided, the call settles it first. Afterwards the pass knows the
/// fate of the attempt's entry. An attempt of the descriptor was taken before, and the pass has no
/// attempt in hand. It takes no memory.
///
/// It takes one step if the attempt is decided. Otherwise it takes at most `3r + 5`, if the attempt
/// recorded r words.
#[inline(always)]
pub fn decided_status<T: Theory>(field: &Field<T>, pass: &mut Pass<T>, desc: u32) -> u64
    requires of { IsOf pass.old field.now }
    requires idle { pass.old.view.hand ≡ None }
    requires exists { desc < desc_count field.now.origin.shape }
    requires own { HasDesc field.now.origin.shape pass.old.view desc }
    requires reached { IsReached pass.old desc }
    ensures same { pass.new ≡ record pass.old { view = pass.new.view } }
    ensures stands { StandsInField T.meaning field.now.origin pass.new.view }
    ensures finds { FindsDecided field.now.origin.shape desc result pass.old.view pass.new.view }
{
    let found = pass.load(field, field.shape().status(desc));
    match StatusWord::of(found).status {
        Status::Committed => found,
        Status::Aborted => found,
        _ => settled_status(field, pass, desc),
    }
}

// Starts the descriptor again. The serial of the attempt that begins. Two steps, or five.
fn restart<T: Theory>(field: &Field<T>, pass: &mut Pass<T>, desc: u32) -> u64
    requires of { IsOf pass.old field.now }
    requires idle { pass.old.view.hand ≡ None }
    requires may { MayRestart field.now.origin.shape pass.old desc }
    ensures same { pass.new ≡ record pass.old { view = pass.new.view; shares = pass.new.shares } }
    ensures counts { KeepsCounts pass.old.shares pass.new.shares }
    ensures new { FindsNew T.meaning field.now.origin desc result pass.old.view pass.new.view }
{
    kept(pass);
    let found = decided_status(field, pass, desc);
    pass.start(field, desc, found);
    StatusWord::of(found).serial + 1
}

// The serial of the lane's first attempt, for which its descriptor was prepared. One step.
fn first_serial<T: Theory>(field: &Field<T>, pass: &mut Pass<T>, desc: u32) -> u64
    requires of { IsOf pass.old field.now }
    requires idle { pass.old.view.hand ≡ None }
    requires taken { IsTakenLast pass.old desc }
    requires first { (share_at pass.old.shares desc).tries_taken ≡ 1 }
    ensures same { pass.new ≡ record pass.old { view = pass.new.view } }
    ensures new { FindsNew T.meaning field.now.origin desc result pass.old.view pass.new.view }
{
    let found = pass.load(field, field.shape().status(desc));
    StatusWord::of(found).serial
}

// Takes a descriptor out of a word, whose attempt ended so. Two steps.
fn take_out<T: Theory>(field: &Field<T>, pass: &mut Pass<T>, word: u32, found: Content, end: End)
    requires of { IsOf pass.old field.now }
    requires stands { StandsInField T.meaning field.now.origin pass.old.view }
    requires spot { StandsOwn field.now.origin.shape pass.old.view word (word_of found) end }
    requires fits { found.count ≤ LAST_COUNT + 1 }
    ensures same { pass.new ≡ record pass.old { view = pass.new.view } }
    ensures higher { PassesCount field.now.origin.shape word (word_of found) pass.old.view
        pass.new.view }
{
    let value = slot_value(field, pass, found, end);
    let _ = pass.uninstall(field, word, found, value);
}

// Whether the descriptor stands in a word of this content, in this slot.
fn stands_at(found: Content, desc: u32, slot: u8) -> bool
    ensures { IsTrue result ↔ ((is_even found.count ≡ false)
        × (spot_of found.value ≡ record { desc = desc; slot = slot })) }
{
    match found.stands() {
        Some(spot) => spot.desc == desc && spot.slot == slot,
        None => false,
    }
}

// Takes the descriptor out of the word of a slot, if it stands there. Two steps, or four.
fn take_slot_out<T: Theory>(field: &Field<T>, pass: &mut Pass<T>, desc: u32, slot: u8, end: End)
    requires of { IsOf pass.old field.now }
    requires idle { pass.old.view.hand ≡ None }
    requires exists { IsInSet field.now.origin.shape desc slot }
    requires knows { (serial : ℕ) × KnowsEnd field.now.origin.shape pass.old.view desc serial end }
    ensures same { pass.new ≡ record pass.old { view = pass.new.view } }
    ensures out { (serial : ℕ) → KnowsEnd field.now.origin.shape pass.old.view desc serial end
        → TakesSlot field.now.origin.shape desc serial slot end pass.old.view pass.new.view }
{
    let word = pass.load(field, field.shape().slot_word(desc, slot)) as u32;
    let found = Content::of(pass.load(field, word));
    if stands_at(found, desc, slot) {
        take_out(field, pass, word, found, end);
    }
}

// Settles the last transaction of the lane, which was dropped, and takes its descriptor out of the
// words that it wrote.
fn take_left_slots_out<T: Theory>(field: &Field<T>, pass: &mut Pass<T>, desc: u32)
    requires of { IsOf pass.old field.now }
    requires idle { pass.old.view.hand ≡ None }
    requires taken { HasAttempt pass.old desc }
    ensures same { pass.new ≡ record pass.old { view = pass.new.view } }
    ensures empty { Empties field.now.origin.shape desc pass.old.view pass.new.view }
{
    let end = settle_one(field, pass, desc);
    let slots = pass.slots_written(desc) as u8;
    for slot in 0..slots {
        take_slot_out(field, pass, desc, slot, end);
    }
}

/// If the lane's last transaction was dropped, the call settles it, and takes its descriptor out of
/// the words that it wrote. An attempt of the lane was taken before, and the pass has no attempt in
/// hand. It takes no memory.
///
/// It takes no step if the last transaction was ended. Otherwise it takes at most `3r + 3`, if the
/// transaction recorded r words, and at most four for each word that it wrote.
#[inline(always)]
pub fn take_left_out<T: Theory>(field: &Field<T>, pass: &mut Pass<T>, desc: u32)
    requires of { IsOf pass.old field.now }
    requires idle { pass.old.view.hand ≡ None }
    requires taken { HasAttempt pass.old desc }
    ensures same { pass.new ≡ record pass.old { view = pass.new.view } }
    ensures empty { Empties field.now.origin.shape desc pass.old.view pass.new.view }
{
    if pass.left_open(desc) {
        take_left_slots_out(field, pass, desc);
    }
}

// Prepares the lane's descriptor for its next attempt, and returns the serial of the attempt.
fn next_serial<T: Theory>(field: &Field<T>, pass: &mut Pass<T>, desc: u32) -> u64
    requires of { IsOf pass.old field.now }
    requires stands { StandsInField T.meaning field.now.origin pass.old.view }
    requires idle { pass.old.view.hand ≡ None }
    requires taken { IsTakenLast pass.old desc }
    ensures same { pass.new ≡ record pass.old { view = pass.new.view; shares = pass.new.shares } }
    ensures counts { KeepsCounts pass.old.shares pass.new.shares }
    ensures new { FindsNew T.meaning field.now.origin desc result pass.old.view pass.new.view }
{
    if pass.tries_taken(desc) == 1 {
        return first_serial(field, pass, desc);
    }
    take_left_out(field, pass, desc);
    restart(field, pass, desc)
}

/// Puts the next attempt of a lane in hand, with a tag, and returns its serial. The attempt was the
/// last that was taken, and the pass has no attempt in hand. If the lane's last transaction was
/// dropped, it is settled first, and its descriptor is taken out of the words that it wrote. It
/// always succeeds, and takes no memory.
///
/// It takes two steps at a lane's first attempt, and three at later ones. After a dropped
/// transaction that recorded r words, it takes at most `3r + 3` more, and at most four for each
/// word that the transaction wrote. It takes three more if an attempt was taken and never put in
/// hand.
pub fn put_in_hand<T: Theory>(field: &Field<T>, pass: &mut Pass<T>, desc: u32, tag: u64) -> u64
    requires of { IsOf pass.old field.now }
    requires stands { StandsInField T.meaning field.now.origin pass.old.view }
    requires idle { pass.old.view.hand ≡ None }
    requires taken { IsTakenLast pass.old desc }
    ensures same { pass.new ≡ record pass.old { view = pass.new.view; shares = pass.new.shares } }
    ensures counts { KeepsCounts pass.old.shares pass.new.shares }
    ensures hand { PutsInHand T.meaning field.now.origin desc tag result pass.old.view
        pass.new.view }
{
    let serial = next_serial(field, pass, desc);
    kept(pass);
    pass.mark_begin(field, desc, tag);
    serial
}
