//! What a caller holds: its end of a channel, and the line that it plays.

ghost use Rattle.std.specs.Prelude.{◌≡◌, ◌<◌, ◌≤◌, true, IfSome};
ghost use Rattle.std.specs.Option.{ForSome};
ghost use Rattle.md_orders.specs.Records.{max_records};
ghost use Rattle.md_orders.specs.Maker.{made_at};
ghost use Rattle.md_feed_lines.specs.Fed.{fed_at, IsMade};

use crate::channel::{Found, TakeEnd};
use crate::fed::FedLine;
use crate::making::{Making, Wanted};
use md_book::Command;
use md_orders::MAX_MADE_CALLERS;
use std::sync::Wait;
use std::thread;

// The most often that a caller looks for a line before it makes the line itself. After a line that
// didn't come it looks half as often, until one comes.
const MOST_LOOKS: u32 = 256;

/// A caller's end of its channel, and the line that it took or made last. It holds this line until
/// it is asked for another: an attempt at it may have met a conflict.
#[derive(Drop)]
pub(crate) struct Hand {
    end: TakeEnd,
    held: Option<FedLine>,
    looks: u32,
    making: Making,
    ghost held_is: { ForSome held IsMade },
}

fn is_wanted(line: &FedLine, wanted: Wanted) -> bool
    ensures { result ≡ true → IsMade line.now
        → line.now ≡ fed_at wanted.number wanted.callers wanted.made }
{
    line.number == wanted.number && line.callers == wanted.callers && line.made == wanted.made
}

impl Hand {
    pub(crate) fn new(end: TakeEnd, making: Making) -> Hand {
        Hand {
            end,
            held: None,
            looks: MOST_LOOKS,
            making,
        }
    }

    // Looks for a line in the channel. Lines before it were made here meanwhile, and are dropped.
    fn look_for<R: Wait>(&mut self, rt: &R, wanted: Wanted) -> Option<FedLine>
        ensures { IfSome result (λ line. line ≡ fed_at wanted.number wanted.callers wanted.made) }
    {
        for look in 0..self.looks {
            match self.end.take(rt) {
                Found::Line(line) => {
                    if is_wanted(&line, wanted) {
                        return Some(line);
                    }
                }
                Found::Empty => thread::yield_now(),
                Found::Gone => return None,
            }
        }
        None
    }

    /// The command of the line that is asked for: of the line in hand, or of the next one in the
    /// channel, or, if none comes, of one that is made here.
    pub(crate) fn command<R: Wait>(&mut self, rt: &R, wanted: Wanted) -> Command
        requires callers { (1 ≤ wanted.callers) × (wanted.callers ≤ MAX_MADE_CALLERS) }
        requires made { wanted.made < max_records }
        ensures { result ≡ (made_at wanted.number wanted.callers wanted.made).2 }
    {
        if let Some(line) = &self.held {
            if is_wanted(line, wanted) {
                return line.command;
            }
        }
        let line = match self.look_for(rt, wanted) {
            Some(line) => {
                self.looks = MOST_LOOKS;
                line
            }
            None => {
                self.looks = (self.looks / 2).max(1);
                self.making.line(wanted)
            }
        };
        self.held = Some(line);
        line.command
    }
}
