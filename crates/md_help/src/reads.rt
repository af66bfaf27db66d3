//! Whether the reads of an attempt stand.

ghost use Rattle.std.specs.Prelude.{◌≡◌, ◌<◌, ◌≤◌};
ghost use Rattle.md_words.specs.declared.limits.TheConstants.{SET};
ghost use Rattle.md_words.specs.Layout.{IsInSet, desc_count};
ghost use Rattle.md_machine.specs.Trail.{read_stands};
ghost use Rattle.md_rule.specs.Views.{IsOf};
ghost use Rattle.md_help.specs.After.{OnlySteps, StandsInField};
ghost use Rattle.md_help.specs.Reads.{Checked, Validated};

use md_machine::Theory;
use md_rule::{Field, Pass};
use md_words::Content;

// Whether each of so many reads stands. The first that doesn't ends it.
pub(crate) fn validate<T: Theory>(
    field: &Field<T>,
    pass: &mut Pass<T>,
    desc: u32,
    reads: u8,
) -> bool
    requires field { IsOf pass.old field.now }
    requires stands { StandsInField T.meaning field.now.origin pass.old.view }
    requires desc { desc < desc_count field.now.origin.shape }
    requires reads { reads ≤ SET }
    ensures steps { OnlySteps T.meaning field.now.origin pass.old pass.new }
    ensures validated { Validated field.now.origin.shape desc reads result pass.old.view
        pass.new.view }
{
    for i in 0..reads {
        if !check(field, pass, desc, i) {
            return false;
        }
    }
    true
}

// Whether one read stands.
fn check<T: Theory>(field: &Field<T>, pass: &mut Pass<T>, desc: u32, i: u8) -> bool
    requires field { IsOf pass.old field.now }
    requires exists { IsInSet field.now.origin.shape desc i }
    ensures steps { OnlySteps T.meaning field.now.origin pass.old pass.new }
    ensures checked { Checked field.now.origin.shape desc i result pass.old.view pass.new.view }
{
    let word = pass.load(field, field.shape().read_word(desc, i)) as u32;
    let recorded = pass.load(field, field.shape().read_content(desc, i));
    let found = pass.load(field, word);
    does_stand(desc, recorded, found)
}

/// Whether a read of a descriptor stands. It recorded one content, and another was found in its
/// word. It stands if the two are the same, or if the descriptor itself was found there, one count
/// later.
pub fn does_stand(desc: u32, recorded: u64, found: u64) -> bool
    ensures { result ≡ read_stands desc recorded found }
{
    if found == recorded {
        return true;
    }
    let content = Content::of(found);
    match content.stands() {
        Some(spot) => {
            spot.desc == desc && content.count as u64 == Content::of(recorded).count as u64 + 1
        }
        None => false,
    }
}
