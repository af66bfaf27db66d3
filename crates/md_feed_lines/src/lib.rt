//! Commands that are made one at a time, and fed to callers over channels while these play them.
#![tactic(auto)]

mod channel;
mod fed;
mod feed;
mod feeder;
mod hand;
mod laws;
mod lines;
mod making;
mod plan;

pub use feeder::{Feeder, feed_beside, open_feed};
pub use laws::plan_laws;
pub use lines::FeedLines;
pub use plan::Plan;
