//! The concurrent store: maps and queues in one field of shared words, used by several passes at
//! once.
//!
//! `Store::open` lays contents out in a field, and gives the pass that holds all lanes. `split` and
//! `join` divide passes and put them together. `attempt` runs a body once, and `begin` begins a
//! transaction that plain code makes call by call. `settle` decides what transactions left open.
//! `close` gives the contents that are left, `close_maps` some of their maps alone, and `renew` a
//! new store with them, in which all nodes and attempts can be used again. Only `open`, `close`,
//! `close_maps` and `renew` take memory.
#![tactic(auto)]

pub use laws::transactions_end;
pub use pass::StorePass;
pub use store::{OpenFault, Store};
pub use txn::StoreTxn;

mod attempt;
mod begin;
mod body;
mod calls;
mod ending;
mod engine;
mod lawful;
mod laws;
mod moves;
mod pass;
mod settling;
mod store;
mod txn;
