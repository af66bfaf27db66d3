//! A pass looks at the cell's word, and takes a descriptor out that it finds there.

ghost use Rattle.std.specs.Prelude.{◌≡◌, None};
ghost use Rattle.md_rule.specs.Views.{IsOf};
ghost use Rattle.example_stalls.specs.Meeting.{MeetsCell};

use example_cell::CellTheory;
use example_tickets::ticket_word;
use md_help::{Cleared, clear};
use md_rule::{Field, Pass};
use md_words::Content;

/// What stood in the word: a plain content with an even count, or a descriptor, which was cleared.
#[derive(Clone, Copy, Debug, PartialEq, Eq)]
pub enum Met {
    Plain(Content),
    Cleared(Cleared),
}

/// Loads the cell's word. If a descriptor stands there, its attempt is settled and it is taken
/// out. The pass has nothing in hand. One step, and at most `3r + 6` more for a descriptor whose
/// attempt has `r` reads, whatever others do.
pub fn meet(field: &Field<CellTheory>, pass: &mut Pass<CellTheory>) -> Met
    requires field { IsOf pass.old field.now }
    requires idle { pass.old.view.hand ≡ None }
    ensures same { pass.new ≡ record pass.old { view = pass.new.view } }
    ensures idle { pass.new.view.hand ≡ None }
    ensures met { MeetsCell field.now.origin.shape result pass.old.view pass.new.view }
{
    let word = ticket_word(field);
    let found = Content::of(pass.load(field, word));
    if found.count % 2 == 0 {
        return Met::Plain(found);
    }
    Met::Cleared(clear(field, pass, word, found))
}
