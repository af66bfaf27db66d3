//! What a transaction keeps of the words that it recorded and wrote, and the calls that need no
//! more than that, a pass and a field. md_nbtc makes transactions of them.
//!
//! - `Sets` is the room: the recorded words (`Reads`), the slots (`Slots`), where the nodes of each
//!   lane begin (`Lots`), and what a commit left in the written words (`Lefts`). A search of a set
//!   begins at the mark of the word.
//! - `put_in_hand` begins an attempt: what the lane's last transaction left standing is taken out
//!   first. `decided_status` and `take_left_out` are parts of that.
//! - `look_at` looks at a word, and waits a little where a descriptor stands.
//! - `decided` validates the recorded words, commits or aborts by that, and cleans up.
//!   `abort_unready` and `withdraw` end an attempt that isn't ready.
//! - A `Receipt` tells what a committed transaction recorded and wrote.
//!
//! The comments use the words of md_nbtc: **step**, **record**, **write**, **slot** and **live**.
#![tactic(auto)]

pub use begin::{decided_status, put_in_hand, take_left_out};
pub use deciding::decided;
pub use looking::look_at;
pub use receipt::Receipt;
pub use sets::{Lefts, Lots, Reads, Sets, Slots};
pub use withdrawal::{abort_unready, withdraw};

mod begin;
mod deciding;
mod looking;
mod marks;
mod receipt;
mod sets;
mod taking_out;
mod tidying;
mod withdrawal;
