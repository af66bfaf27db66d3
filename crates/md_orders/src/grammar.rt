//! The caller and the command that a record writes.

ghost use Rattle.std.specs.Prelude.{◌≡◌};
ghost use Rattle.csv.specs.Records.{fields_of};
ghost use Rattle.md_orders.specs.Grammar.{account_at, price_at, quantity_at, terms_of, place_of};
ghost use Rattle.md_orders.specs.Grammar.{cancel_of, fill_of, kill_of, depth_of, account_of};
ghost use Rattle.md_orders.specs.Grammar.{command_of, caller_of};

use crate::fields::{byte_at, number_at, side_at};
use crate::version::Version;
use csv::ByteRecord;
use md_book::{Command, MAX_ACCOUNT, MAX_PRICE, MAX_QUANTITY, MAX_SCRIPT_LINE, Side, order_name};

// What an order, a fill and a kill write alike.
#[derive(Clone, Copy)]
pub(crate) struct Terms {
    account: u32,
    side: Side,
    price: u32,
    quantity: u32,
}

fn account_at(row: &ByteRecord, place: usize) -> Option<u32>
    ensures { result ≡ account_at (fields_of row.now) place }
{
    number_at(row, place, 1, MAX_ACCOUNT)
}

fn price_at(row: &ByteRecord, place: usize) -> Option<u32>
    ensures { result ≡ price_at (fields_of row.now) place }
{
    number_at(row, place, 1, MAX_PRICE)
}

fn quantity_at(row: &ByteRecord, place: usize) -> Option<u32>
    ensures { result ≡ quantity_at (fields_of row.now) place }
{
    number_at(row, place, 1, MAX_QUANTITY)
}

fn terms_of(row: &ByteRecord) -> Option<Terms>
    ensures { result ≡ terms_of (fields_of row.now) }
{
    let account = account_at(row, 2)?;
    let side = side_at(row, 3)?;
    let price = price_at(row, 4)?;
    let quantity = quantity_at(row, 5)?;
    Some(Terms {
        account,
        side,
        price,
        quantity,
    })
}

fn place_of(name: u64, row: &ByteRecord) -> Option<Command>
    ensures { result ≡ place_of name (fields_of row.now) }
{
    let terms = terms_of(row)?;
    Some(Command::Place {
        name,
        account: terms.account,
        side: terms.side,
        price: terms.price,
        quantity: terms.quantity,
    })
}

fn cancel_of(version: Version, row: &ByteRecord) -> Option<Command>
    ensures { result ≡ cancel_of version (fields_of row.now) }
{
    let caller = number_at(row, 2, 1, version.max_caller())?;
    let line = number_at(row, 3, 1, MAX_SCRIPT_LINE)?;
    Some(Command::Cancel {
        name: order_name(caller, line),
    })
}

fn fill_of(version: Version, row: &ByteRecord) -> Option<Command>
    ensures { result ≡ fill_of version (fields_of row.now) }
{
    let terms = terms_of(row)?;
    Some(Command::Fill {
        account: terms.account,
        side: terms.side,
        price: terms.price,
        quantity: terms.quantity,
        places: version.places(),
    })
}

fn kill_of(version: Version, row: &ByteRecord) -> Option<Command>
    ensures { result ≡ kill_of version (fields_of row.now) }
{
    let terms = terms_of(row)?;
    Some(Command::Kill {
        account: terms.account,
        side: terms.side,
        price: terms.price,
        quantity: terms.quantity,
        places: version.places(),
    })
}

fn depth_of(row: &ByteRecord) -> Option<Command>
    ensures { result ≡ depth_of (fields_of row.now) }
{
    let side = side_at(row, 2)?;
    let price = price_at(row, 3)?;
    Some(Command::Depth { side, price })
}

fn account_of(row: &ByteRecord) -> Option<Command>
    ensures { result ≡ account_of (fields_of row.now) }
{
    let account = account_at(row, 2)?;
    Some(Command::Account { account })
}

/// The command that a record writes; an order that it places gets the name.
#[tactic(auto, unfolding(crate::specs::Grammar::command_of))]
pub(crate) fn command_of(version: Version, name: u64, row: &ByteRecord) -> Option<Command>
    ensures { result ≡ command_of version name (fields_of row.now) }
{
    match (byte_at(row, 1)?, row.len()) {
        (b'P', 6) => place_of(name, row),
        (b'C', 4) => cancel_of(version, row),
        (b'F', 6) => fill_of(version, row),
        (b'K', 6) => kill_of(version, row),
        (b'D', 4) => depth_of(row),
        (b'A', 3) => account_of(row),
        _ => None,
    }
}

/// The caller of a record, from 1 to `callers` and within the version's range.
#[tactic(auto, unfolding(crate::specs::Grammar::caller_of))]
pub(crate) fn caller_of(version: Version, callers: u32, row: &ByteRecord) -> Option<u32>
    ensures { result ≡ caller_of version callers (fields_of row.now) }
{
    number_at(row, 0, 1, callers.min(version.max_caller()))
}
