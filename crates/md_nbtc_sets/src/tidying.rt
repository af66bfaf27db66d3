//! How the cleanups of a committed transaction are made.

ghost use Rattle.std.specs.Prelude.{◌≡◌, ◌↔◌, All, IsTrue, List, map, true};
ghost use Rattle.std.specs.List.{AllZip};
ghost use Rattle.md_words.specs.Content.{value_of};
ghost use Rattle.md_words.specs.Layout.{IsNode};
ghost use Rattle.md_machine.specs.declared.step.Step.{Step};
ghost use Rattle.md_machine.specs.events.Start.{IsClean};
ghost use Rattle.md_rule.specs.Views.{IsOf};
ghost use Rattle.md_help.specs.After.{StandsInField};
ghost use Rattle.md_nbtc_law.specs.Cleaning.{cleanup_node, cleanup_value, cleanup_word};
ghost use Rattle.md_nbtc_law.specs.Deciding.{Cleaned, CleansSlot, CleansSlots, FindsNext};
ghost use Rattle.md_nbtc_law.specs.Deciding.{FinishesAttempt};
ghost use Rattle.md_nbtc_law.specs.Deciding.{MayClean, MayCleanSlot, TakesSlots, TookLeft, TookOut};
ghost use Rattle.md_nbtc_law.specs.Deciding.{TookSlot, Tried};
ghost use Rattle.md_nbtc_law.specs.Ending.{IsReason, names_node};
ghost use Rattle.md_nbtc_law.specs.Withdrawing.{IsAlwaysPlaced};
ghost use Rattle.md_nbtc_sets.specs.Deciding.{MayFinish};

use crate::sets::{Lefts, Slots};
use crate::taking_out::take_write_out;
use md_machine::{AttemptId, Theory};
use md_nbtc_law::{Cleanup, Slot, WORN};
use md_rule::{Field, Pass};
use md_words::{Content, Status};

// The word that it changes.
fn word_of(cleanup: Cleanup) -> u32
    ensures { result ≡ cleanup_word cleanup }
{
    match cleanup {
        Cleanup::Unlink { prev, node: _ } => prev,
        Cleanup::MoveTail {
            tail,
            from: _,
            to: _,
        } => tail,
    }
}

// The node whose next word it goes by.
fn node_of(cleanup: Cleanup) -> u32
    ensures { result ≡ cleanup_node cleanup }
{
    match cleanup {
        Cleanup::Unlink { prev: _, node } => node,
        Cleanup::MoveTail {
            tail: _,
            from,
            to: _,
        } => from,
    }
}

// Whether its word names the node, without a mark.
fn names(cleanup: Cleanup, held: u64) -> bool
    ensures { result ≡ names_node cleanup held }
{
    let content = Content::of(held);
    content.stands().is_none() && content.value as u64 == 2 * node_of(cleanup) as u64
}

// Whether it may go by this content of the node's next word.
fn is_reason(cleanup: Cleanup, next: u64) -> bool
    ensures { IsTrue result ↔ IsReason cleanup next }
{
    let content = Content::of(next);
    if content.stands().is_some() {
        return false;
    }
    match cleanup {
        Cleanup::Unlink { prev: _, node: _ } => content.value % 2 == 1,
        Cleanup::MoveTail {
            tail: _,
            from: _,
            to,
        } => content.value != 0 && content.value as u64 == 2 * to as u64,
    }
}

// The value that its word gets by this content.
fn new_value(cleanup: Cleanup, next: u64) -> u32
    requires { IsReason cleanup next }
    ensures { result ≡ cleanup_value cleanup (value_of next) }
{
    let value = Content::of(next).value;
    match cleanup {
        Cleanup::Unlink { prev: _, node: _ } => value - 1,
        Cleanup::MoveTail {
            tail: _,
            from: _,
            to: _,
        } => value,
    }
}

// What stands in the node's next word: an unlink loads it, and a move of the tail goes by what was
// left there when the descriptor was taken out of it.
fn next_by<T: Theory>(field: &Field<T>, pass: &mut Pass<T>, cleanup: Cleanup, left: u64) -> u64
    requires of { IsOf pass.old field.now }
    requires stands { StandsInField T.meaning field.now.origin pass.old.view }
    requires exists { IsNode field.now.origin.shape (cleanup_node cleanup) }
    requires placed { IsAlwaysPlaced T.meaning field.now.origin pass.old.view
        (cleanup_node cleanup) }
    ensures same { pass.new ≡ record pass.old { view = pass.new.view } }
    ensures stands { StandsInField T.meaning field.now.origin pass.new.view }
    ensures next { (out : Step) → TookOut field.now.origin.shape pass.old.view cleanup left out
        → FindsNext field.now.origin.shape cleanup out result pass.old.view pass.new.view }
{
    match cleanup {
        Cleanup::Unlink { prev: _, node } => pass.load(field, field.shape().node_next(node)),
        Cleanup::MoveTail {
            tail: _,
            from: _,
            to: _,
        } => left,
    }
}

// Makes the change of a cleanup whose word was found to name its node. Nothing is done if the word
// is worn, or if the node's next word doesn't hold what it must. At most two steps.
fn try_cleanup<T: Theory>(
    field: &Field<T>,
    pass: &mut Pass<T>,
    cleanup: Cleanup,
    held: u64,
    left: u64,
)
    requires of { IsOf pass.old field.now }
    requires stands { StandsInField T.meaning field.now.origin pass.old.view }
    requires may { MayClean T.meaning field.now.origin pass.old.view cleanup }
    requires names { names_node cleanup held ≡ true }
    requires out { (out : Step) × TookOut field.now.origin.shape pass.old.view cleanup left out }
    ensures same { pass.new ≡ record pass.old { view = pass.new.view } }
    ensures stands { StandsInField T.meaning field.now.origin pass.new.view }
    ensures tried { (out : Step) → TookOut field.now.origin.shape pass.old.view cleanup left out
        → Tried field.now.origin.shape cleanup out held pass.old.view pass.new.view }
{
    let next = next_by(field, pass, cleanup, left);
    let from = Content::of(held);
    if from.count < WORN && is_reason(cleanup, next) {
        let _ = pass.exchange(field, word_of(cleanup), from, new_value(cleanup, next));
    }
}

// Makes one cleanup, if its word still names its node. At most three steps.
fn clean_up<T: Theory>(field: &Field<T>, pass: &mut Pass<T>, cleanup: Cleanup, left: u64)
    requires of { IsOf pass.old field.now }
    requires stands { StandsInField T.meaning field.now.origin pass.old.view }
    requires may { MayClean T.meaning field.now.origin pass.old.view cleanup }
    requires out { (out : Step) × TookOut field.now.origin.shape pass.old.view cleanup left out }
    ensures same { pass.new ≡ record pass.old { view = pass.new.view } }
    ensures stands { StandsInField T.meaning field.now.origin pass.new.view }
    ensures cleaned { (out : Step) → TookOut field.now.origin.shape pass.old.view cleanup left out
        → Cleaned field.now.origin.shape cleanup out pass.old.view pass.new.view }
{
    let held = pass.load(field, word_of(cleanup));
    if names(cleanup, held) {
        try_cleanup(field, pass, cleanup, held, left);
    }
}

// Takes the descriptor of a committed attempt out of the words that it wrote, in order, and keeps
// what is left in each. One step each.
pub(crate) fn take_slots_out<T: Theory>(
    field: &Field<T>,
    pass: &mut Pass<T>,
    attempt: AttemptId,
    slots: &Slots,
    lefts: &mut Lefts,
)
    requires of { IsOf pass.old field.now }
    requires stands { StandsInField T.meaning field.now.origin pass.old.view }
    requires may { MayFinish T.meaning field.now.origin pass.old.view attempt slots.now }
    ensures same { pass.new ≡ record pass.old { view = pass.new.view } }
    ensures stands { StandsInField T.meaning field.now.origin pass.new.view }
    ensures takes { TakesSlots field.now.origin.shape attempt slots.now lefts.new pass.old.view
        pass.new.view }
    ensures clean { IsClean pass.new.view attempt }
{
    lefts.clear();
    for i in 0..slots.len() {
        let write = slots.get(i).write;
        lefts.push(take_write_out(field, pass, attempt, write, Status::Committed));
    }
}

// Makes the cleanup that a slot keeps, if it keeps one.
fn clean_slot<T: Theory>(field: &Field<T>, pass: &mut Pass<T>, slot: Slot, left: u64)
    requires of { IsOf pass.old field.now }
    requires stands { StandsInField T.meaning field.now.origin pass.old.view }
    requires may { MayCleanSlot T.meaning field.now.origin pass.old.view slot }
    requires out { (out : Step) × TookLeft field.now.origin.shape pass.old.view slot left out }
    ensures same { pass.new ≡ record pass.old { view = pass.new.view } }
    ensures stands { StandsInField T.meaning field.now.origin pass.new.view }
    ensures cleans { (out : Step) → TookLeft field.now.origin.shape pass.old.view slot left out
        → CleansSlot field.now.origin.shape slot out pass.old.view pass.new.view }
{
    if let Some(cleanup) = slot.cleanup {
        clean_up(field, pass, cleanup, left);
    }
}

// Makes the cleanups that are kept, in the order of their slots. At most three steps each.
pub(crate) fn clean_slots<T: Theory>(
    field: &Field<T>,
    pass: &mut Pass<T>,
    slots: &Slots,
    lefts: &Lefts,
)
    requires of { IsOf pass.old field.now }
    requires stands { StandsInField T.meaning field.now.origin pass.old.view }
    requires may { All (MayCleanSlot T.meaning field.now.origin pass.old.view) slots.now }
    requires outs { (outs : List Step)
        × AllZip (TookSlot field.now.origin.shape pass.old.view) slots.now outs
        × (lefts.now ≡ map (λ s. s.after) outs) }
    ensures same { pass.new ≡ record pass.old { view = pass.new.view } }
    ensures stands { StandsInField T.meaning field.now.origin pass.new.view }
    ensures cleans { (outs : List Step)
        → AllZip (TookSlot field.now.origin.shape pass.old.view) slots.now outs
        → lefts.now ≡ map (λ s. s.after) outs
        → CleansSlots field.now.origin.shape slots.now outs pass.old.view pass.new.view }
{
    for i in 0..slots.len() {
        let left = lefts.get(i);
        clean_slot(field, pass, slots.get(i), left);
    }
}

// The rest of an attempt that was committed: its descriptor is taken out of the words that it
// wrote, the kept cleanups are made, and nothing is in hand. At most four steps for each written
// word, and one more.
pub(crate) fn finish<T: Theory>(
    field: &Field<T>,
    pass: &mut Pass<T>,
    attempt: AttemptId,
    slots: &Slots,
    lefts: &mut Lefts,
)
    requires of { IsOf pass.old field.now }
    requires stands { StandsInField T.meaning field.now.origin pass.old.view }
    requires may { MayFinish T.meaning field.now.origin pass.old.view attempt slots.now }
    ensures { FinishesAttempt T.meaning field.now.origin pass.old attempt slots.now pass.new }
{
    let _ = pass.shape();
    take_slots_out(field, pass, attempt, slots, lefts);
    clean_slots(field, pass, slots, lefts);
    pass.mark_end(field, attempt.desc);
}
