//! Michael's lock-free list: when words are a list, which certificates Get, Insert, Remove and Put
//! have, and what an unlink is. After M. M. Michael, "High Performance Dynamic Lock-Free Hash
//! Tables and List-Based Sets" (2002). Put isn't Michael's: the node with the key gets a mark, and
//! names a new node with the same key.
//!
//! What follows:
//!
//! - A certificate that stands in a heap with the list has the reply that the operation has on the
//!   list's map, and leaves a heap whose list has the operation's map.
//! - An unlink that stands leaves the list with the same map, and needs no transaction.
//! - Neither takes away a fact on a placed node; words of nodes that aren't placed don't matter.
//! - So one list is a theory of the machine: [`one_list_laws`].
//! - In every theory that [`HasLists`], [`list_facts`] tells what a walk along a bucket shows.
#![tactic(auto)]

pub use lists::{HasLists, list_facts};
pub use one_list::{one_list_laws, worked_list};

pub mod lists;
mod one_list;
