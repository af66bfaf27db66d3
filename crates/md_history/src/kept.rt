//! Acts as a history keeps them. A line stands apart, so that other acts take no room for one.

ghost use Rattle.std.specs.Prelude.{◌≡◌, IfOk};
ghost use Rattle.md_history.specs.Kept.{reply_of, kept_as};

use crate::acts::{Act, Line, Op, Reply};
use std::alloc::{AllocError, Global};

// A reply as it is kept, in 16 bytes.
#[derive(Debug, Drop)]
pub(crate) enum KeptReply {
    Found(u64),
    NotFound,
    Flag(bool),
    Nothing,
    Line(Box<Line>),
}

// An act as it is kept.
#[derive(Debug, Drop)]
pub(crate) struct KeptAct {
    pub(crate) op: Op,
    pub(crate) reply: KeptReply,
}

impl KeptAct {
    // Keeps an act. Only a line takes memory; `AllocError` if there is none for it.
    pub(crate) fn of(alloc: Global, op: Op, reply: Reply) -> Result<KeptAct, AllocError>
        ensures { IfOk result (λ kept. kept_as kept ≡ record { op = op; reply = reply }) }
    {
        let reply = match reply {
            Reply::Value(Some(value)) => KeptReply::Found(value),
            Reply::Value(None) => KeptReply::NotFound,
            Reply::Flag(flag) => KeptReply::Flag(flag),
            Reply::Nothing => KeptReply::Nothing,
            Reply::Line(line) => KeptReply::Line(Box::new(alloc, line)?),
        };
        Ok(KeptAct { op, reply })
    }

    // The act that is kept.
    pub(crate) fn act(&self) -> Act
        ensures { result ≡ kept_as self.now }
    {
        let reply = match &self.reply {
            KeptReply::Found(value) => Reply::Value(Some(*value)),
            KeptReply::NotFound => Reply::Value(None),
            KeptReply::Flag(flag) => Reply::Flag(*flag),
            KeptReply::Nothing => Reply::Nothing,
            KeptReply::Line(line) => Reply::Line(**line),
        };
        Act { op: self.op, reply }
    }
}
