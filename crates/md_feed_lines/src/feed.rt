//! Who makes a caller's lines and sends them to it.

ghost use Rattle.std.specs.Prelude.{◌≡◌, ◌≢◌, ◌≤◌, ◌<◌, ◌+◌, ◌++◌, ◌∷◌, [], None, true, IfSome, IfNone};
ghost use Rattle.std.specs.Option.{ForSome};
ghost use Rattle.crossbeam_channel.specs.Claims.{view};
ghost use Rattle.md_feed_lines.specs.Made.{before_line};
ghost use Rattle.md_feed_lines.specs.Fed.{fed_at, lines_from};
ghost use Rattle.md_feed_lines.specs.Planned.{CanBeMade};

use crate::channel::{Offer, SendEnd};
use crate::fed::FedLine;
use crate::making::{Making, Wanted};
use crate::plan::Plan;
use std::sync::Wait;

// The most lines that a caller is sent before the others have their turn.
const MOST_IN_A_ROW: u32 = 256;

/// Feeds one caller.
#[derive(Drop)]
pub(crate) struct Feed {
    end: SendEnd,
    plan: Plan,
    caller: u32,
    sent: u32,
    making: Making,
    next: Option<FedLine>,
    ghost range: { CanBeMade plan × (1 ≤ caller) × (caller ≤ plan.callers) },
    ghost lines: { (view end.pass).lines ≡ lines_from plan.number plan.callers caller 0 sent },
    ghost next_is: { ForSome next (λ line. (line.made < plan.lines)
        × (line ≡ fed_at plan.number plan.callers (before_line plan.callers caller sent))) },
    ghost none_left: { next ≡ None → plan.lines ≤ before_line plan.callers caller sent },
}

/// What became of the lines of callers.
#[derive(Clone, Copy, PartialEq, Eq)]
pub(crate) enum Step {
    /// No line is left to be sent, or nobody takes any.
    Done,
    /// No line was sent, and some are left.
    Waits,
    /// A line was sent.
    Sent,
}

// Makes a caller's next line after so many, if there is one.
fn line_after(making: &mut Making, plan: Plan, caller: u32, sent: u32) -> Option<FedLine>
    requires { CanBeMade plan × (1 ≤ caller) × (caller ≤ plan.callers) × (sent ≤ plan.lines) }
    ensures line { IfSome result (λ line. (line.made < plan.lines)
        × (line ≡ fed_at plan.number plan.callers (before_line plan.callers caller sent))) }
    ensures none { IfNone result (plan.lines ≤ before_line plan.callers caller sent) }
{
    let made = sent * plan.callers + (caller - 1);
    if made >= plan.lines {
        return None;
    }
    Some(making.line(Wanted {
        number: plan.number,
        callers: plan.callers,
        made,
    }))
}

impl Step {
    /// What became of the lines of some callers and of one more.
    pub(crate) fn and(self, more: Step) -> Step {
        match more {
            Step::Done => self,
            Step::Waits => {
                if self == Step::Sent {
                    Step::Sent
                } else {
                    Step::Waits
                }
            }
            Step::Sent => Step::Sent,
        }
    }
}

impl Feed {
    pub(crate) fn new(end: SendEnd, plan: Plan, caller: u32) -> Feed
        requires range { CanBeMade plan × (1 ≤ caller) × (caller ≤ plan.callers) }
        requires none { (view end.pass).lines ≡ [] }
        ensures { (result.plan ≡ plan) × (result.caller ≡ caller) }
    {
        let mut making = Making::new(plan.number, plan.callers);
        let next = line_after(&mut making, plan, caller, 0);
        Feed {
            end,
            plan,
            caller,
            sent: 0,
            making,
            next,
        }
    }

    /// Whether the caller was sent all its lines.
    pub(crate) fn is_done(&self) -> bool
        ensures { result ≡ true → self.now.plan.lines
            ≤ before_line self.now.plan.callers self.now.caller self.now.sent }
    {
        self.next.is_none()
    }

    /// Offers the caller the line after those that it was sent, if one is left. It waits for no room.
    pub(crate) fn step<R: Wait>(&mut self, rt: &R) -> Step
        ensures of { (self.new.plan ≡ self.old.plan) × (self.new.caller ≡ self.old.caller) }
        ensures sent { result ≡ Step.Sent → (self.new.sent ≡ self.old.sent + 1)
            × ((view self.new.end.pass).lines ≡ (view self.old.end.pass).lines
            ++ fed_at self.old.plan.number self.old.plan.callers
            (before_line self.old.plan.callers self.old.caller self.old.sent) ∷ []) }
        ensures kept { result ≢ Step.Sent → (self.new.sent ≡ self.old.sent)
            × ((view self.new.end.pass).lines ≡ (view self.old.end.pass).lines) }
    {
        let Some(line) = self.next else {
            return Step::Done;
        };
        match self.end.offer(rt, line) {
            Offer::Sent => {}
            Offer::Full => return Step::Waits,
            Offer::Gone => return Step::Done,
        }
        let sent = self.sent + 1;
        let next = line_after(&mut self.making, self.plan, self.caller, sent);
        self.sent = sent;
        self.next = next;
        Step::Sent
    }

    /// Sends the caller lines while there is room.
    pub(crate) fn steps<R: Wait>(&mut self, rt: &R) -> Step
        ensures { (self.new.plan ≡ self.old.plan) × (self.new.caller ≡ self.old.caller) }
    {
        for sent in 0..MOST_IN_A_ROW {
            match self.step(rt) {
                Step::Sent => {}
                end => return if sent == 0 { end } else { Step::Sent },
            }
        }
        Step::Sent
    }
}
