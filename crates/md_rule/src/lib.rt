//! A field of shared words under the machine's theorem, and the passes that step on it.
//!
//! A `Field` owns a table of atomic words, a `Pass` is a thread's right to step on it. Each step
//! is one atomic operation and one event of the machine, and its contract says which. Where there
//! is one lane, and so one pass, the words are the pass's own, and its steps are the same events.
#![tactic(auto)]

pub use certifying::Certifying;
pub use close::{Closed, Ended};
pub use field::Field;
pub use known::{Known, Parts};
pub use md_rule_lanes::Share;
pub use pass::Pass;
pub use rule::{Following, Halving, Joining, Key, Looking, Ruled, Telling};

mod certifying;
mod close;
mod field;
mod known;
mod marks;
mod parts;
mod pass;
mod rule;
mod steps;
mod taken;
mod words;
