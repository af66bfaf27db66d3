//! How a transaction whose fate is known takes its descriptor out of the words that it wrote.

ghost use Rattle.std.specs.Prelude.{◌≡◌, ◌+◌, ◌<◌, ◌≤◌, ◌^◌, map};
ghost use Rattle.md_words.specs.Content.{count_of, word_of};
ghost use Rattle.md_machine.specs.declared.step.TheConstants.{LAST_COUNT};
ghost use Rattle.md_help.specs.After.{StandsInField};
ghost use Rattle.md_rule.specs.Views.{IsOf};
ghost use Rattle.md_nbtc_law.specs.Withdrawing.{AreInstalled, HasFate, IsInstalled};
ghost use Rattle.md_nbtc_law.specs.Withdrawing.{TakesWriteOut, TakesWritesOut};
ghost use Rattle.md_nbtc_law.specs.Withdrawing.{installed_in, taken_value};

use crate::sets::Slots;
use md_machine::{AttemptId, Theory, Write};
use md_rule::{Field, Pass};
use md_words::{Content, Spot, Status};

// What the fate makes of a written word.
fn value_by(fate: Status, write: Write) -> u32
    requires { write.new < 2 ^ 32 }
    ensures { result ≡ taken_value fate write }
{
    match fate {
        Status::Committed => write.new as u32,
        _ => Content::of(write.old).value,
    }
}

// What the attempt's slot left in the word.
fn installed(attempt: AttemptId, write: Write) -> Content
    requires desc { attempt.desc < 2 ^ 24 }
    requires room { count_of write.old ≤ LAST_COUNT }
    ensures count { result.count ≡ count_of write.old + 1 }
    ensures word { word_of result ≡ installed_in attempt write }
{
    let spot = Spot {
        desc: attempt.desc,
        slot: write.slot,
    };
    Content {
        value: spot.value(),
        count: Content::of(write.old).count + 1,
    }
}

// Takes the descriptor in hand out of one word by the fate of its attempt: what is left there, or
// was found if another did it. One step.
pub(crate) fn take_write_out<T: Theory>(
    field: &Field<T>,
    pass: &mut Pass<T>,
    attempt: AttemptId,
    write: Write,
    fate: Status,
) -> u64
    requires of { IsOf pass.old field.now }
    requires stands { StandsInField T.meaning field.now.origin pass.old.view }
    requires fate { HasFate field.now.origin.shape pass.old.view attempt fate }
    requires installed { IsInstalled field.now.origin.shape pass.old.view attempt write }
    ensures same { pass.new ≡ record pass.old { view = pass.new.view } }
    ensures stands { StandsInField T.meaning field.now.origin pass.new.view }
    ensures out { TakesWriteOut T.meaning field.now.origin attempt fate write result pass.old.view
        pass.new.view }
{
    let from = installed(attempt, write);
    let value = value_by(fate, write);
    match pass.uninstall(field, write.word, from, value) {
        Ok(()) => Content {
            value,
            count: from.count + 1,
        }
        .word(),
        Err(found) => found,
    }
}

// Takes it out of each word that it wrote, in order. One step each.
pub(crate) fn take_writes_out<T: Theory>(
    field: &Field<T>,
    pass: &mut Pass<T>,
    attempt: AttemptId,
    slots: &Slots,
    fate: Status,
)
    requires of { IsOf pass.old field.now }
    requires stands { StandsInField T.meaning field.now.origin pass.old.view }
    requires fate { HasFate field.now.origin.shape pass.old.view attempt fate }
    requires installed { AreInstalled field.now.origin.shape pass.old.view attempt
        (map (λ s. s.write) slots.now) }
    ensures same { pass.new ≡ record pass.old { view = pass.new.view } }
    ensures stands { StandsInField T.meaning field.now.origin pass.new.view }
    ensures out { TakesWritesOut field.now.origin.shape attempt fate
        (map (λ s. s.write) slots.now) pass.old.view pass.new.view }
{
    for i in 0..slots.len() {
        take_write_out(field, pass, attempt, slots.get(i).write, fate);
    }
}
