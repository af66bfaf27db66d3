//! The store as a theory of the machine: the hash tables of all maps together with all queues, over
//! fields of any shape. `read_off` gives the contents of a field from its words, and `gather` takes
//! what lives from words that stand anywhere. md_store_layout lays both as the words of a field.
//!
//! What follows for a program whose transactions leave these certificates, by `all_schedules`:
//!
//! 1. However passes interleave, every bucket stays a list of its keys, and every queue keeps its
//!    shape.
//! 2. Each operation on a map or a queue has its reply and its effect, and leaves all others alone.
//! 3. An unlink of a removed node and a move of a lagging tail change no contents.
//! 4. The words of a node that isn't placed may be written at will.
//! 5. Every counted word but a next word of an unplaced node names no node, or a placed one.
#![tactic(auto)]

pub use field_words::FieldWords;
pub use fields::even_fields_are_stores;
pub use gathering::{Living, gather};
pub use lists::Lists;
pub use reading::{read_off, read_off_from, read_off_maps_from};
pub use theory::StoreTheory;

mod field_words;
mod fields;
mod gathering;
mod lists;
mod reading;
mod side_walks;
pub mod theory;
mod walks;
