//! What is fed: how many lines, from which number, for how many callers.

ghost use Rattle.std.specs.Prelude.{◌≡◌, ◌<◌, ◌≤◌, Some, length};
ghost use Rattle.md_orders.specs.Scripts.{at_line};
ghost use Rattle.md_orders.specs.Maker.{made_at};
ghost use Rattle.md_rounds.specs.OrderLines.{line_count_of};
ghost use Rattle.md_feed_lines.specs.Planned.{CanBeMade, scripts_of};

use crate::making::Wanted;

/// What is fed.
#[derive(Clone, Copy, Debug, PartialEq, Eq)]
pub struct Plan {
    /// The number from which the commands are made: any.
    pub number: u32,
    /// How many commands are made for all callers, 1 to 1,000,000.
    pub lines: u32,
    /// How many callers there are, 1 to `MAX_MADE_CALLERS` of md_orders.
    pub callers: u32,
}

impl Plan {
    /// How many lines a caller has. Those who are no callers have none.
    pub(crate) fn lines_of(self, caller: u32) -> u32
        requires { CanBeMade self }
        ensures { result ≡ line_count_of (scripts_of self) caller }
    {
        if caller == 0 || caller > self.callers {
            return 0;
        }
        (self.lines + (self.callers - caller)) / self.callers
    }

    /// A caller's line, as it is made.
    pub(crate) fn wanted(self, caller: u32, line: u32) -> Wanted
        requires plan { CanBeMade self }
        requires line { (1 ≤ line) × (line ≤ line_count_of (scripts_of self) caller) }
        requires caller { (1 ≤ caller) × (caller ≤ self.callers) }
        ensures made { result.made < self.lines }
        ensures of { (result.number ≡ self.number) × (result.callers ≡ self.callers) }
        ensures line { at_line (scripts_of self) caller line
            ≡ Some (made_at result.number result.callers result.made).2 }
    {
        Wanted {
            number: self.number,
            callers: self.callers,
            made: (line - 1) * self.callers + (caller - 1),
        }
    }
}
