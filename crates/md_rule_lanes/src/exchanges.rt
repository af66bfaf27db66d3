//! What an exchange leaves, and what it answers.

ghost use Rattle.std.specs.Prelude.{◌≡◌, ◌≢◌, ◌≤◌, MatchResult};
ghost use Rattle.md_words.specs.Content.{word_of};
ghost use Rattle.md_machine.specs.declared.step.TheConstants.{LAST_COUNT};
ghost use Rattle.md_machine.specs.events.Exchange.{exchanged_word};

use md_words::Content;

/// The word of a content after a plain exchange for this value.
pub fn exchanged(from: Content, to: u32) -> u64
    requires { from.count ≤ LAST_COUNT }
    ensures { result ≡ exchanged_word (word_of from) to }
{
    Content {
        value: to,
        count: from.count + 2,
    }
    .word()
}

/// The answer of an exchange that found this word in the place of an expected one: `Ok` where they
/// are the same, and otherwise what it found.
#[inline]
pub fn answered(found: u64, from: u64) -> Result<(), u64>
    ensures { MatchResult result (λ _. found ≡ from) (λ held. (held ≡ found) × (held ≢ from)) }
{
    if found == from { Ok(()) } else { Err(found) }
}
