//! How a word is looked at where another's descriptor may stand.

ghost use Rattle.std.specs.Prelude.{◌≡◌, ◌+◌, ◌<◌, ◌≤◌, false};
ghost use Rattle.md_words.specs.Content.{count_of, is_even};
ghost use Rattle.md_words.specs.Layout.{words_of};
ghost use Rattle.md_rule.specs.Views.{IsOf};
ghost use Rattle.md_help.specs.After.{StandsInField};
ghost use Rattle.md_nbtc_law.specs.declared.seen.TheConstants.{LOOKS};
ghost use Rattle.md_nbtc_law.specs.Looking.{LooksUntil};

use crate::sets::Slots;
use md_machine::Theory;
use md_nbtc_law::LOOKS;
use md_rule::{Field, Pass};
use md_words::Content;
use std::hint::spin_loop;

// So often one of a higher number is, by a transaction whose own descriptor stands in a word. If
// two transactions each hold a word that the other wants, one of them soon gives way.
const FEW_LOOKS: u32 = 60;

// A pause between two looks is at most so long, in turns of the spin hint.
const LONGEST: u32 = 2;

fn pause(turns: u32) {
    for _ in 0..turns.min(LONGEST) {
        spin_loop();
    }
}

// How often another's descriptor is looked at again. The own one stands in the words of the slots.
fn patience(own: u32, slots: &Slots, other: u32) -> u32
    ensures { (1 ≤ result) × (result ≤ LOOKS) }
{
    if slots.len() > 0 && own < other {
        FEW_LOOKS
    } else {
        LOOKS
    }
}

// Looks again while the same descriptor stands in the word, so often at most and with short pauses,
// and returns what it found last.
#[cold]
#[inline(never)]
fn await_other<T: Theory>(
    field: &Field<T>,
    pass: &mut Pass<T>,
    word: u32,
    found: u64,
    most: u32,
) -> u64
    requires of { IsOf pass.old field.now }
    requires stands { StandsInField T.meaning field.now.origin pass.old.view }
    requires inside { word < words_of field.now.origin.shape }
    requires odd { is_even (count_of found) ≡ false }
    requires most { (1 ≤ most) × (most ≤ LOOKS) }
    ensures same { pass.new ≡ record pass.old { view = pass.new.view } }
    ensures looks { LooksUntil T.meaning field.now.origin word LOOKS result pass.old.view
        pass.new.view }
{
    let mut last = found;
    for i in 0..most {
        pause(i);
        last = pass.load(field, word);
        if last != found {
            return last;
        }
    }
    last
}

/// Looks at a word, and returns what it found: a descriptor only if it stands there for a while.
/// The word is any of the field's. `own` is the own descriptor, which stands in the words of its
/// slots. The call always succeeds, and takes no memory.
///
/// It takes one step. If a descriptor stands in the word, it looks again until something else
/// stands there, at most 300 times, with short pauses between. It does so at most 60 times if there
/// are slots, and the number of the own descriptor is lower.
pub fn look_at<T: Theory>(
    field: &Field<T>,
    pass: &mut Pass<T>,
    word: u32,
    own: u32,
    slots: &Slots,
) -> u64
    requires of { IsOf pass.old field.now }
    requires stands { StandsInField T.meaning field.now.origin pass.old.view }
    requires inside { word < words_of field.now.origin.shape }
    ensures same { pass.new ≡ record pass.old { view = pass.new.view } }
    ensures looks { LooksUntil T.meaning field.now.origin word (LOOKS + 1) result pass.old.view
        pass.new.view }
{
    let found = pass.load(field, word);
    match Content::of(found).stands() {
        None => found,
        Some(spot) => {
            let most = patience(own, slots, spot.desc);
            await_other(field, pass, word, found, most)
        }
    }
}
