//! Attempts at the lines of callers over any store, whatever the lines do.
#![tactic(auto)]

mod attempts;
mod batches;
mod callers;
mod gates;
mod line_lists;
mod pauses;
mod reply_lists;
mod steps;
mod tags;
mod until;

pub use attempts::{End, MOST_CONFLICTS, Turn, attempt_line, attempt_lines};
pub use batches::{Played, play_batches};
pub use callers::Lines;
pub use gates::{FreeGate, Gate};
pub use line_lists::LinesByCaller;
pub use reply_lists::ReplyList;
pub use tags::line_tag;
pub use until::attempt_until_committed;
