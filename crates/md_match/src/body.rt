//! Matching commands as bodies of transactions.

ghost use Rattle.md_history.specs.Script.{Did, Follows};
ghost use Rattle.md_match.specs.Commands.{FitsMatch};
ghost use Rattle.md_match.specs.Sweeping.{match_script};

use crate::cancel::cancel;
use crate::commands::{MatchCommand, MatchReply};
use crate::depths::look_depth;
use crate::matching::match_order;
use md_history::{Body, Stop, TxCalls};

impl Body for MatchCommand {
    type Reply = MatchReply;

    ghost did = { λ c acts r. Did (match_script c) acts r };

    ghost makes = { λ c acts. Follows (match_script c) acts };

    ghost fits = { λ c maps queues. FitsMatch c maps queues };

    fn go<T: TxCalls>(&self, t: &mut T) -> Result<MatchReply, Stop> {
        match *self {
            MatchCommand::Match {
                name,
                account,
                side,
                price,
                quantity,
            } => match_order(t, name, account, side, price, quantity),
            MatchCommand::Cancel { name } => cancel(t, name),
            MatchCommand::Depth { side, price } => look_depth(t, side, price),
        }
    }

    ghost did_makes = { λ c acts r did. did.follows };
}
