//! What a pass reckons beside its steps, as plain values. md_rule makes the steps on shared words.
//!
//! - `Lanes` is a set of lanes, and `has_all` tells whether it has all.
//! - A `Share` is what was used of a lane, and what its last transaction left. The calls on a row
//!   of `SHARES` shares change the share of one lane, and `take_shares` joins two rows.
//! - `exchanged` and the calls of `statuses` give the words that steps leave. `answered` is the
//!   answer of an exchange.
//! - `own_words`, `load_private`, `store_private` and `exchange_private` are of the words of a
//!   field with one lane, which its only pass keeps.
#![tactic(auto)]

pub use exchanges::{answered, exchanged};
pub use lanes::{Lanes, has_all};
pub use private::{exchange_private, load_private, own_words, store_private};
pub use shares::{
    SHARES, Share, UNUSED, begin_lane, count_slot, end_lane, restart_lane, set_nodes, set_tries,
    take_shares,
};

mod exchanges;
mod lanes;
mod private;
mod shares;
pub mod statuses;
