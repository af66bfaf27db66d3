//! Whether the numbers of a command are in range, of the order book and of the matching book.

ghost use Rattle.std.specs.Prelude.{IsTrue};
ghost use Rattle.md_book.specs.Book.{IsAccount};
ghost use Rattle.md_book.specs.Commands.{IsCommand, IsName, IsOffer, IsPlaces};
ghost use Rattle.md_match.specs.Commands.{IsMatchCommand};

use md_book::{
    Command, MAX_ACCOUNT, MAX_CALLER, MAX_PRICE, MAX_QUANTITY, MAX_SCRIPT_LINE,
    PLACES_IN_VERSION_1, PLACES_IN_VERSION_2,
};
use md_match::MatchCommand;

fn is_account(account: u32) -> bool
    ensures { IsTrue result → IsAccount account }
{
    1 <= account && account <= MAX_ACCOUNT
}

fn is_name(name: u64) -> bool
    ensures { IsTrue result → IsName name }
{
    let caller = name / 0x1_0000_0000;
    let line = name % 0x1_0000_0000;
    1 <= caller && caller <= MAX_CALLER as u64 && 1 <= line && line <= MAX_SCRIPT_LINE as u64
}

fn is_offer(account: u32, price: u32, quantity: u32) -> bool
    ensures { IsTrue result → IsOffer account price quantity }
{
    is_account(account)
        && 1 <= price
        && price <= MAX_PRICE
        && 1 <= quantity
        && quantity <= MAX_QUANTITY
}

fn is_places(places: u8) -> bool
    ensures { IsTrue result → IsPlaces places }
{
    places == PLACES_IN_VERSION_1 || places == PLACES_IN_VERSION_2
}

/// Whether the numbers of a command of the order book are in range.
pub(super) fn is_lawful(command: Command) -> bool
    ensures { IsTrue result → IsCommand command }
{
    match command {
        Command::Place {
            name,
            account,
            side: _,
            price,
            quantity,
        } => is_name(name) && is_offer(account, price, quantity),
        Command::Cancel { name } => is_name(name),
        Command::Fill {
            account,
            side: _,
            price,
            quantity,
            places,
        } => is_offer(account, price, quantity) && is_places(places),
        Command::Kill {
            account,
            side: _,
            price,
            quantity,
            places,
        } => is_offer(account, price, quantity) && is_places(places),
        Command::Depth { side: _, price } => 1 <= price && price <= MAX_PRICE,
        Command::Account { account } => is_account(account),
    }
}

/// Whether the numbers of a matching command are in range.
pub(super) fn is_lawful_match(command: MatchCommand) -> bool
    ensures { IsTrue result → IsMatchCommand command }
{
    match command {
        MatchCommand::Match {
            name,
            account,
            side: _,
            price,
            quantity,
        } => is_name(name) && is_offer(account, price, quantity),
        MatchCommand::Cancel { name } => is_name(name),
        MatchCommand::Depth { side: _, price } => 1 <= price && price <= MAX_PRICE,
    }
}
