//! Clearing: whoever meets a descriptor in a word settles its attempt and takes it out.

ghost use Rattle.std.specs.Prelude.{◌≡◌, ◌≤◌, false};
ghost use Rattle.md_words.specs.declared.limits.TheConstants.{SET};
ghost use Rattle.md_words.specs.Content.{count_of, is_even, spot_of, value_of, word_of};
ghost use Rattle.md_words.specs.Layout.{IsInSet};
ghost use Rattle.md_words.specs.Status.{reads_of};
ghost use Rattle.md_machine.specs.events.Uninstall.{desc_in};
ghost use Rattle.md_rule.specs.Views.{IsOf};
ghost use Rattle.md_help.specs.After.{OnlySteps, StandsInField};
ghost use Rattle.md_help.specs.Clears.{Clears, Finishes, IsInTheWay, NamesSlot, SawDecided};
ghost use Rattle.md_help.specs.Clears.{SawTwice, SlotLoaded, TakenOut, fate_of};
ghost use Rattle.md_help.specs.Decided.{WasDecided};
ghost use Rattle.md_help.specs.declared.settling.End.TheVariants.{Gone};

use crate::settling::{End, settle};
use md_machine::Theory;
use md_rule::{Field, Pass};
use md_words::{Content, Spot};

/// How a clearing ended, and what its last step left in the word or found there.
#[derive(Clone, Copy, Debug, PartialEq, Eq)]
pub struct Cleared {
    pub end: End,
    pub left: u64,
}

/// Takes a descriptor out of a word in which it was found, and settles its attempt first, in at
/// most `3r + 6` steps of this pass, whatever others do; `r` is the number of the attempt's reads.
/// An attempt that isn't ready is aborted. One that is ready is committed if all its reads stand,
/// and aborted otherwise. It is Gone exactly if the word didn't hold `found` when it was looked at
/// again, before the settling, or after it found another attempt's status. In each case the attempt
/// is decided, and the word has a higher count than `found` afterwards.
///
/// The word is a counted word, and `found` has an odd count; a step of this pass found it there
/// since the last join. The descriptor that stands there exists, and isn't that of the transaction
/// in hand. It takes no memory.
#[cold]
#[inline(never)]
pub fn clear<T: Theory>(field: &Field<T>, pass: &mut Pass<T>, word: u32, found: Content) -> Cleared
    requires field { IsOf pass.old field.now }
    requires way { IsInTheWay field.now.origin.shape pass.old.view word (word_of found) }
    ensures same { pass.new ≡ record pass.old { view = pass.new.view } }
    ensures stands { StandsInField T.meaning field.now.origin pass.new.view }
    ensures clears { Clears field.now.origin.shape word (word_of found) result pass.old.view
        pass.new.view }
    ensures decided { WasDecided T.meaning field.now.origin word (word_of found) pass.new.view }
{
    let desc = spot_in(found).desc;
    let status = pass.load(field, field.shape().status(desc));
    let left = pass.load(field, word);
    let moved = left != found.word();
    if moved {
        return Cleared {
            end: End::Gone,
            left,
        };
    }
    finish(field, pass, word, found, status)
}

// After the content was seen twice: settles the attempt of the status that was found between, and
// takes it out, unless a later attempt was met.
fn finish<T: Theory>(
    field: &Field<T>,
    pass: &mut Pass<T>,
    word: u32,
    found: Content,
    status: u64,
) -> Cleared
    requires field { IsOf pass.old field.now }
    requires stands { StandsInField T.meaning field.now.origin pass.old.view }
    requires slot { NamesSlot field.now.origin.shape word found }
    requires few { reads_of status ≤ SET }
    requires saw { SawTwice field.now.origin.shape pass.old.view word (word_of found) status }
    ensures steps { OnlySteps T.meaning field.now.origin pass.old pass.new }
    ensures finishes { Finishes field.now.origin.shape word (word_of found) status result
        pass.old.view pass.new.view }
{
    let desc = spot_in(found).desc;
    let end = settle(field, pass, desc, status);
    match end {
        End::Gone => {
            let left = pass.load(field, word);
            Cleared {
                end: End::Gone,
                left,
            }
        }
        _ => {
            let left = take_out(field, pass, word, found, end);
            Cleared { end, left }
        }
    }
}

// Takes the descriptor out of the word, by the fate of its attempt. What stands there afterwards.
fn take_out<T: Theory>(
    field: &Field<T>,
    pass: &mut Pass<T>,
    word: u32,
    found: Content,
    end: End,
) -> u64
    requires field { IsOf pass.old field.now }
    requires slot { NamesSlot field.now.origin.shape word found }
    requires saw { SawDecided field.now.origin.shape pass.old.view word (word_of found)
        (fate_of end) }
    ensures steps { OnlySteps T.meaning field.now.origin pass.old pass.new }
    ensures taken { TakenOut field.now.origin.shape word (word_of found) (fate_of end) result
        pass.old.view pass.new.view }
{
    let value = slot_value(field, pass, found, end);
    match pass.uninstall(field, word, found, value) {
        Ok(()) => Content {
            value,
            count: found.count + 1,
        }
        .word(),
        Err(left) => left,
    }
}

/// The value that the fate of an attempt takes from its slot that stands in a word of this content:
/// the new one after a commit, that of the old content after an abort. One load, of the slot's
/// word.
pub fn slot_value<T: Theory>(field: &Field<T>, pass: &mut Pass<T>, found: Content, end: End) -> u32
    requires field { IsOf pass.old field.now }
    requires odd { is_even (count_of (word_of found)) ≡ false }
    requires exists { IsInSet field.now.origin.shape (desc_in (word_of found))
        (spot_of (value_of (word_of found))).slot }
    ensures same { pass.new ≡ record pass.old { view = pass.new.view } }
    ensures loaded { SlotLoaded field.now.origin.shape (word_of found) (fate_of end) result
        pass.old.view pass.new.view }
{
    let spot = spot_in(found);
    match end {
        End::Committed => pass.load(field, field.shape().slot_new(spot.desc, spot.slot)) as u32,
        _ => Content::of(pass.load(field, field.shape().slot_old(spot.desc, spot.slot))).value,
    }
}

// The slot that stands in a word of this content.
fn spot_in(found: Content) -> Spot
    requires { is_even (count_of (word_of found)) ≡ false }
    ensures { result ≡ spot_of (value_of (word_of found)) }
{
    match Content::of(found.word()).stands() {
        Some(spot) => spot,
        None => Spot { desc: 0, slot: 0 },
    }
}
