//! Callers that play order commands over any store, in rounds.
#![tactic(auto)]

mod all;
mod kept;
mod kept_lists;
mod laws;
mod limits;
mod order_lines;
mod summed;
mod turn_replies;

pub use all::{OpenOutcome, Outcome, run_all, run_all_open};
pub use limits::limits_hold;
pub use md_many::{FreeGate, Gate, OpenRounds, Rounds};
pub use summed::summaries_add_up;
