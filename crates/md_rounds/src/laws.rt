//! The laws of order commands as lines.

ghost use Rattle.std.specs.Prelude.{◌≤◌};
ghost use Rattle.md_book.specs.Book.{empty_book};
ghost use Rattle.md_book.specs.Meets.{CommandsMeetTheBook};
ghost use Rattle.md_book.specs.Stands.{StandsFor};
ghost use Rattle.md_orders.specs.Records.{max_records};
ghost use Rattle.md_orders.specs.Scripts.{AreNamed, count_of};
ghost use Rattle.md_many.specs.Laws.{AreLawful};
ghost use Rattle.md_rounds.specs.OrderLines.{order_meaning};
ghost use Rattle.md_rounds.specs.Replay.{no_orders};
ghost use Rattle.md_rounds.specs.Traded.{order_law};

use md_book::{commands_are_small, commands_meet_the_book, empty_book_stands, replies_suit};
use md_orders::{Scripts, commands_are_named};

/// Lends the laws of the scripts' commands as lines to a proof, and what they come from. It has no
/// effect when it runs.
pub(crate) fn order_laws(scripts: &Scripts)
    ensures laws { AreLawful (order_meaning scripts.now) (order_law scripts.now) }
    ensures named { AreNamed scripts.now }
    ensures few { count_of scripts.now ≤ max_records }
    ensures meets { CommandsMeetTheBook }
    ensures none { StandsFor no_orders empty_book }
{
    commands_meet_the_book();
    commands_are_small();
    empty_book_stands();
    replies_suit();
    commands_are_named(scripts);
    let _ = scripts.total();
}
