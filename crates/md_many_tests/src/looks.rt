//! Bodies that look at a queue, and leave the store as it is.

use crate::lines::{EachLine, Numbered};
use md_history::{Body, Stop, TxCalls};
use md_many::{LawfulBody, LawfulLines, Lines};

// A body that looks at the first value of the first queue, and answers its own number.
#[derive(Clone, Copy, Drop)]
pub(crate) struct Look {
    pub(crate) number: u64,
}

impl Body for Look {
    ghost use Rattle.std.specs.Prelude.{◌<◌};
    ghost use Rattle.md_history.specs.declared.acts.Op.TheVariants.{Front};
    ghost use Rattle.md_history.specs.Script.{Did, Follows, call, done};

    type Reply = u64;

    ghost did = { λ b acts r. Did (call (Front 0) (λ _. done b.number)) acts r };

    ghost makes = { λ b acts. Follows (call (Front 0) (λ _. done b.number)) acts };

    ghost fits = { λ b maps queues. 0 < queues };

    fn go<T: TxCalls>(&self, t: &mut T) -> Result<u64, Stop> {
        t.front(0)?;
        Ok(self.number)
    }

    ghost did_makes = { λ b acts r did. did.follows };
}

impl Numbered for Look {
    ghost with_number = { λ b number. record { number = number } };

    fn with_number(&self, number: u64) -> Look {
        Look { number }
    }
}

// They leave the empty queue as it is.
impl LawfulLines for EachLine<Look> {
    ghost use Rattle.std.specs.Prelude.{◌≡◌, IsSome};
    ghost use Rattle.md_history.specs.State.{empty_state};

    ghost opening = { λ n. empty_state 0 1 };

    ghost good = { λ n s tags. s ≡ empty_state 0 1 };

    ghost suits = { λ n caller line r.
        IsSome (⟦<EachLine<Look> as Lines>⟧.body_at n caller line) };

    ghost cost = { λ n. record { reads = 2; writes = 0; nodes = 0 } };

    ghost most = { λ n. 1 };
}

// They keep whatever was so, and need no node.
impl LawfulBody for Look {
    ghost use Rattle.std.specs.Prelude.{◌<◌, length};
    ghost use Rattle.md_history.specs.Counts.{bounds_of_calls};

    ghost good = { λ opening s. 0 < length opening.queues };

    ghost cost = { bounds_of_calls 1 };

    ghost growth = { 0 };
}
