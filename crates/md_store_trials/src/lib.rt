//! Bodies for tests of the store, and what a body that may make any calls tells of a stop. The
//! tests of md_store_tests run them over the store beside a store for one thread, and on several
//! threads. The meanings of the bodies hold of all acts, so no clause says what they do. The tests
//! compare their replies and the contents that they leave.
#![tactic(auto)]

pub use counts::Count;
pub use mix::{MOST_CALLS, Mix};
pub use transfers::Transfer;
pub use turns::{KEPT, Turn, Turned, key_of};

mod counts;
mod mix;
mod transfers;
mod turns;
