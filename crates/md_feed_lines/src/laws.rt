//! The laws of the lines that are fed.

ghost use Rattle.std.specs.Prelude.{◌≡◌};
ghost use Rattle.md_book.specs.Book.{empty_book};
ghost use Rattle.md_book.specs.Meets.{CommandsMeetTheBook};
ghost use Rattle.md_book.specs.Stands.{StandsFor};
ghost use Rattle.md_orders.specs.Generator.{AreMade};
ghost use Rattle.md_orders.specs.Scripts.{AreNamed, count_of};
ghost use Rattle.md_many.specs.Laws.{AreLawful};
ghost use Rattle.md_rounds.specs.OrderLines.{order_meaning};
ghost use Rattle.md_rounds.specs.Replay.{no_orders};
ghost use Rattle.md_rounds.specs.Traded.{order_law};
ghost use Rattle.md_feed_lines.specs.Planned.{CanBeMade, scripts_of};

use crate::plan::Plan;
use md_book::{commands_are_small, commands_meet_the_book, empty_book_stands, replies_suit};

/// Lends the laws of a plan's commands as lines to a proof, and what they come from. It has no
/// effect when it runs.
pub fn plan_laws(plan: Plan)
    requires { CanBeMade plan }
    ensures laws { AreLawful (order_meaning (scripts_of plan)) (order_law (scripts_of plan)) }
    ensures made { AreMade plan.number plan.lines plan.callers (scripts_of plan) }
    ensures named { AreNamed (scripts_of plan) }
    ensures count { count_of (scripts_of plan) ≡ plan.lines }
    ensures meets { CommandsMeetTheBook }
    ensures none { StandsFor no_orders empty_book }
{
    commands_meet_the_book();
    commands_are_small();
    empty_book_stands();
    replies_suit();
}
