//! Hash tables with a fixed number of buckets, as a theory of the machine: for each map an array of
//! buckets, each a list of [`md_list_law`]. A key's bucket is the key modulo the number of buckets.
//!
//! What follows:
//!
//! - A certificate of Get, Insert, Remove or Put on a key of a map, in the key's bucket, has the
//!   operation's reply on the state, and leaves a valid heap with the operation's state.
//! - An unlink in any bucket leaves a valid heap with the same state.
//! - Neither takes away a fact on a placed node; words of nodes that aren't placed don't matter.
//! - So [`md_machine::all_schedules`] holds for [`HashTheory`], and every schedule of transactions
//!   on hash tables has a legal history: [`hash_table_schedules`].
//! - [`HashTheory`] has [`md_list_law::HasLists`], so code that walks a bucket works for it as for
//!   every other theory that has lists.
#![tactic(auto)]

pub use hash_table::{HashTheory, hash_table_schedules, worked_tables};
pub use one_list::{ListTheory, one_list_schedules};

mod hash_table;
mod one_list;
