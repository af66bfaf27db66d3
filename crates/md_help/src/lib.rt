//! Clearing: what a thread does about another's descriptor that stands in its way. It settles the
//! attempt, and takes the descriptor out of the word; it waits for nobody.
#![tactic(auto)]

pub use clearing::{Cleared, clear, slot_value};
pub use lending::kept;
pub use reads::does_stand;
pub use settling::{End, settle_one};

mod clearing;
mod lending;
mod reads;
mod settling;
