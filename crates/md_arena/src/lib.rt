//! The nodes and the attempts of a pass's lanes: which one it takes next.
#![tactic(auto)]

pub use attempts::take_descriptor;
pub use laws::no_node_twice;
pub use nodes::{give_back, take_node};

mod attempts;
mod laws;
mod lowest;
mod nodes;
