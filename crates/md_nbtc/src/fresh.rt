//! How a transaction takes new nodes.

ghost use Rattle.std.specs.Prelude.{◌≡◌, ◌<◌, ◌/◌, ℕ, true};
ghost use Rattle.md_nbtc_law.specs.Calls.{AfterStop, FreshKeepsGiven, Freshened, GoesOn};
ghost use Rattle.md_nbtc_law.specs.Going.{IsUnderWay};
ghost use Rattle.md_nbtc.specs.State.{state};

use crate::txn::Txn;
use md_arena::{give_back, take_node};
use md_history::{Limit, Stop};
use md_machine::Theory;
use md_nbtc_law::{Lot, WORN};
use md_words::Content;

// The quotient of two numbers, where one is likely. It is tried first, since a division takes
// longer than all else that `fresh` computes.
fn quotient(past: u32, by: u32, likely: u32) -> u32
    requires { 0 < by }
    ensures { result ≡ past / by }
{
    let least = u64::from(likely) * u64::from(by);
    let past_wide = u64::from(past);
    if least <= past_wide && past_wide - least < u64::from(by) {
        return likely;
    }
    past / by
}

impl<'a, T: Theory> Txn<'a, T> {
    /// Takes the lowest node that is left of the pass's lanes, and stores its key, its value and
    /// its next word, whose count rises by 2. It returns the node. An operation is begun. No other
    /// transaction sees the node before this one has put it into a structure and committed. When
    /// the operation ends, its certificate names the node as a new one, with these words.
    ///
    /// It returns `Limit::Nodes` exactly if no lane of the pass has a node left. It returns
    /// `Limit::Worn` exactly if the count of the node's next word is 4,294,967,292 or more; then
    /// the node is given back. The transaction keeps this stop. After a stop it returns the same
    /// stop, and does nothing.
    ///
    /// It takes four steps. It takes one if the next word is worn, and none if no node is left.
    #[inline(always)]
    pub fn fresh(&mut self, key: u64, value: u64, next: u32) -> Result<u32, Stop>
        requires going { IsUnderWay T.meaning (state self.old) }
        requires operates { (state self.old).hand.operating ≡ true }
        ensures pass { self.new.pass.ghost_name ≡ self.old.pass.ghost_name }
        ensures on { GoesOn T.meaning (state self.old) (state self.new) }
        ensures fresh { AfterStop (state self.old).stop (state self.old) (state self.new) result
            (Freshened (state self.old) (state self.new) key value next result) }
        ensures given { FreshKeepsGiven (state self.old) (state self.new) result }
    {
        if let Some(stop) = self.stop {
            return Err(stop);
        }
        let shape = *self.pass.shape();
        let likely = self.pass.lane(0);
        let node = match take_node(self.pass) {
            Ok(node) => node,
            Err(limit) => {
                self.stop = Some(Stop::Limit(limit));
                return Err(Stop::Limit(limit));
            }
        };
        let word = shape.node_next(node);
        let found = Content::of(self.pass.load(self.field, word));
        if found.count >= WORN {
            give_back(self.pass, node);
            let worn = Stop::Limit(Limit::Worn {
                word,
                count: found.count,
            });
            self.stop = Some(worn);
            return Err(worn);
        }
        let stored = Content {
            value: next,
            count: found.count + 2,
        };
        self.pass.store(self.field, shape.node_key(node), key);
        self.pass.store(self.field, shape.node_value(node), value);
        self.pass.store(self.field, word, stored.word());
        let lane = quotient(node - shape.base - 1, shape.nodes, likely);
        let first = self.pass.nodes_taken(lane) - 1;
        self.sets.lots.keep(Lot { lane, first });
        Ok(node)
    }
}
