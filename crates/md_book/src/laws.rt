//! The law of the book, and laws of trading. Each call does nothing when it runs: its clause is the
//! law.

ghost use Rattle.md_history.specs.State.{empty_state};
ghost use Rattle.md_book.specs.Book.{empty_book};
ghost use Rattle.md_book.specs.Stands.{StandsFor};
ghost use Rattle.md_book.specs.Meets.{CommandsMeetTheBook, CommandsAreSmall};
ghost use Rattle.md_book.specs.Places.{FillsAreFew};
ghost use Rattle.md_book.specs.Trading.{OrdersAddUp, EachOrderAddsUp, LevelsAddUp, DayAddsUp, AccountsAddUp, EachAccountAddsUp, FillsAddUp, KillsAreWhole};
ghost use Rattle.md_book.specs.Suits.{RepliesSuit};

use crate::maps::{LEVELS, MAPS};

/// The law of the book: each command is one step of it. Take maps and queues that stand for a book,
/// and the right acts of a command in range that the book can take. Then the reply is the book's,
/// and the maps and queues after the acts stand for the book after the command. The acts read at
/// most `COMMAND_READS` words, write at most `COMMAND_WRITES` and take at most `COMMAND_NODES`
/// nodes.
pub fn commands_meet_the_book()
    ensures { CommandsMeetTheBook }
{}

/// The beginning of a day: maps and queues with nothing in them stand for the book without orders.
pub fn empty_book_stands()
    ensures { StandsFor (empty_state MAPS LEVELS) empty_book }
{}

/// The bounds `COMMAND_READS`, `COMMAND_WRITES` and `COMMAND_NODES` hold for all right acts that a
/// command in range can make from maps and queues that stand for a book, whether it comes to its
/// end or breaks off.
pub fn commands_are_small()
    ensures { CommandsAreSmall }
{}

/// A fill that looks at p places reads at most 2p + 4 words, writes at most 5p + 10 words and takes
/// at most p + 3 nodes.
pub fn fills_are_few()
    ensures { FillsAreFew }
{}

/// At the end of a day, for each set of orders, the quantity that was placed is the sum of what was
/// cancelled, what was taken and what is left. A day is a list of commands in range whose orders
/// have different names. They run one after another, from the book without orders.
pub fn orders_add_up()
    ensures { OrdersAddUp }
{}

/// At the end of a day, for each order, the quantity that was placed is the sum of what was
/// cancelled, what was taken from it in all and what is left. So an order never gives more than its
/// quantity.
pub fn each_order_adds_up()
    ensures { EachOrderAddsUp }
{}

/// At the end of a day, at each level, the quantity that was placed is the sum of what was
/// cancelled, what was filled and what is left.
pub fn levels_add_up()
    ensures { LevelsAddUp }
{}

/// At the end of a day, over all levels, the quantity that was placed is the sum of what was
/// cancelled, what was filled and what is left.
pub fn days_add_up()
    ensures { DayAddsUp }
{}

/// At the end of a day, all accounts together bought the quantity that was filled, and sold as
/// much.
pub fn accounts_add_up()
    ensures { AccountsAddUp }
{}

/// At the end of a day, each account bought what was taken from its buy orders and what it took
/// from sell orders. It sold what was taken from its sell orders and what it took from buy orders.
pub fn each_account_adds_up()
    ensures { EachAccountAddsUp }
{}

/// The parts of a fill add up to the quantity that it took. With the quantity that remains they add
/// up to the quantity of the command. The same holds for a kill that took anything.
pub fn fills_add_up()
    ensures { FillsAddUp }
{}

/// On a day each reply is of its command's kind, with numbers in their ranges: a fill has no more
/// parts than places, and each part names an order and takes 1 to `MAX_QUANTITY`.
pub fn replies_suit()
    ensures { RepliesSuit }
{}

/// A kill takes nothing, or its whole quantity.
pub fn kills_are_whole()
    ensures { KillsAreWhole }
{}
