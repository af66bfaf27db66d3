//! The status words that steps leave.

ghost use Rattle.std.specs.Prelude.{◌≡◌, ◌^◌, ◌+◌, ◌<◌};
ghost use Rattle.md_words.specs.Status.{status_word, serial_of};
ghost use Rattle.md_words.specs.declared.status.Status.TheVariants.{Aborted, Committed, InProg};
ghost use Rattle.md_machine.specs.events.Decide.{decided_word};
ghost use Rattle.md_machine.specs.events.Start.{started_word};

use md_words::{Status, StatusWord};

/// The same word, committed.
pub fn committed(from: u64) -> u64
    ensures { result ≡ decided_word Committed from }
{
    decided(Status::Committed, from)
}

/// The same word, aborted.
pub fn aborted(from: u64) -> u64
    ensures { result ≡ decided_word Aborted from }
{
    decided(Status::Aborted, from)
}

/// The word of an attempt that becomes ready with so many reads.
pub fn ready(from: u64, reads: u8) -> u64
    ensures { result ≡ status_word InProg reads (serial_of from) }
{
    StatusWord {
        status: Status::InProg,
        reads,
        serial: StatusWord::of(from).serial,
    }
    .word()
}

/// The word of the next attempt.
pub fn started(from: u64) -> u64
    requires { serial_of from + 1 < 2 ^ 54 }
    ensures { result ≡ started_word from }
{
    StatusWord {
        status: Status::InPrep,
        reads: 0,
        serial: StatusWord::of(from).serial + 1,
    }
    .word()
}

// The same word with another status.
fn decided(status: Status, from: u64) -> u64
    ensures { result ≡ decided_word status from }
{
    let StatusWord {
        status: _,
        reads,
        serial,
    } = StatusWord::of(from);
    StatusWord {
        status,
        reads,
        serial,
    }
    .word()
}
