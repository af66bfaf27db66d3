//! Bodies that put numbers into a queue.

use crate::lines::Numbered;
use md_history::{Body, Stop, TxCalls};

// A body that puts a number into the first queue, and answers it.
#[derive(Clone, Copy, Drop)]
pub(crate) struct Put {
    pub(crate) number: u64,
}

impl Body for Put {
    ghost use Rattle.std.specs.Prelude.{◌<◌};
    ghost use Rattle.md_history.specs.declared.acts.Op.TheVariants.{Enqueue};
    ghost use Rattle.md_history.specs.Script.{Did, Follows, call, done};

    type Reply = u64;

    ghost did = { λ b acts r. Did (call (Enqueue 0 b.number) (λ _. done b.number)) acts r };

    ghost makes = { λ b acts. Follows (call (Enqueue 0 b.number) (λ _. done b.number)) acts };

    ghost fits = { λ b maps queues. 0 < queues };

    fn go<T: TxCalls>(&self, t: &mut T) -> Result<u64, Stop> {
        t.enqueue(0, self.number)?;
        Ok(self.number)
    }

    ghost did_makes = { λ b acts r did. did.follows };
}

impl Numbered for Put {
    ghost with_number = { λ b number. record { number = number } };

    fn with_number(&self, number: u64) -> Put {
        Put { number }
    }
}
