//! A pass of a store, with the room for its transactions.

ghost use Rattle.std.specs.Prelude.{◌≡◌};

use md_nbtc::Sets;
use md_rule::Pass;
use md_store_law::StoreTheory;
use std::marker::Model;

/// What lets a thread use a store: a pass of its field, and the room in which its transactions
/// keep their words and nodes, one after another. Contracts see the pass alone.
#[derive(Drop)]
pub struct StorePass {
    /// The pass of the field, which may begin transactions of its own on it.
    pub pass: Pass<StoreTheory>,
    /// The room for its transactions, one at a time.
    pub sets: Sets,
}

impl Model for StorePass {
    ghost use Rattle.md_rule.specs.Views.{PassState};

    ghost Value = { PassState };

    ghost view = { λ p. p.pass };
}

impl StorePass {
    // A pass with room of its own.
    pub(crate) fn of(pass: Pass<StoreTheory>) -> StorePass
        ensures { result ≡ pass }
    {
        StorePass {
            pass,
            sets: Sets::new(),
        }
    }
}
