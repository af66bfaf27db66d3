//! A line that is fed, and the rule of a channel that carries such lines.

ghost use Rattle.std.specs.Prelude.{◌≡◌, ⊤};

use crossbeam_channel::protocol::{Lesson, Outcome, Protocol, Split};
use md_book::Command;
use std::collections::LinkedList;

/// A command that was made from a number for so many callers, after so many other commands.
#[derive(Clone, Copy)]
pub(crate) struct FedLine {
    pub(crate) number: u32,
    pub(crate) callers: u32,
    pub(crate) made: u32,
    pub(crate) command: Command,
}

// What a pass of a channel may do, and the lines that it sent or took. No value of it is made.
pub(crate) struct Place {
    pub(crate) sends: bool,
    pub(crate) takes: bool,
    pub(crate) lines: LinkedList<FedLine>,
}

// The rule of a channel: what is taken is what was sent, in order, and these are a caller's first
// lines.
pub(crate) struct Relay;

impl Protocol<FedLine, Place> for Relay {
    ghost use Rattle.std.specs.Prelude.{true, []};
    ghost use Rattle.md_feed_lines.specs.Fed.{Relays, place};

    ghost holds = { Relays };

    ghost first = { place true true [] };
}

// The two ends of a channel.
pub(crate) struct Ends;

impl Split<Place> for Ends {
    ghost use Rattle.std.specs.Prelude.{true, false};
    ghost use Rattle.md_feed_lines.specs.Fed.{place};

    ghost left = { λ v. place true false v.lines };

    ghost right = { λ v. place false true v.lines };
}

// A line was sent.
pub(crate) struct Sent;

impl Outcome<FedLine, Place> for Sent {
    ghost use Rattle.std.specs.Prelude.{[], ◌∷◌, ◌++◌};
    ghost use Rattle.md_feed_lines.specs.Fed.{place};

    ghost then = { λ v x w. w ≡ place v.sends v.takes (v.lines ++ x ∷ []) };
}

impl Lesson<FedLine, Place> for Sent {
    ghost fact = { λ v items. ⊤ };
}

// A line was taken. It is the next of the caller's.
pub(crate) struct Taken;

impl Outcome<FedLine, Place> for Taken {
    ghost use Rattle.std.specs.Prelude.{[], ◌∷◌, ◌++◌};
    ghost use Rattle.md_feed_lines.specs.Fed.{place, AreFirstLines};

    ghost then = { λ v x w.
        (w ≡ place v.sends v.takes (v.lines ++ x ∷ [])) × AreFirstLines (v.lines ++ x ∷ []) };
}

impl Lesson<FedLine, Place> for Taken {
    ghost fact = { λ v items. ⊤ };
}
