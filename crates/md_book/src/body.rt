//! Commands as bodies of transactions.

ghost use Rattle.md_history.specs.Script.{Did, Follows};
ghost use Rattle.md_book.specs.Commands.{script_of, FitsBook};

use crate::accounts::look_account;
use crate::cancel::cancel;
use crate::commands::{BookReply, Command};
use crate::depths::look_depth;
use crate::fill::fill;
use crate::kill::kill;
use crate::place::place;
use md_history::{Body, Stop, TxCalls};

impl Body for Command {
    type Reply = BookReply;

    ghost did = { λ c acts r. Did (script_of c) acts r };

    ghost makes = { λ c acts. Follows (script_of c) acts };

    ghost fits = { λ c maps queues. FitsBook c maps queues };

    fn go<T: TxCalls>(&self, t: &mut T) -> Result<BookReply, Stop> {
        match *self {
            Command::Place {
                name,
                account,
                side,
                price,
                quantity,
            } => place(t, name, account, side, price, quantity),
            Command::Cancel { name } => cancel(t, name),
            Command::Fill {
                account,
                side,
                price,
                quantity,
                places,
            } => fill(t, account, side, price, quantity, places),
            Command::Kill {
                account,
                side,
                price,
                quantity,
                places,
            } => kill(t, account, side, price, quantity, places),
            Command::Depth { side, price } => look_depth(t, side, price),
            Command::Account { account } => look_account(t, account),
        }
    }

    ghost did_makes = { λ c acts r did. did.follows };
}
