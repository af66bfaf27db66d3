//! A cell as a theory of the machine: the smallest example of what a structure has to bring, and of
//! what it then gets. Nothing of it runs.
//!
//! What follows, by [`cell_schedules`]:
//!
//! 1. However passes interleave, and whatever becomes of the undecided transactions, the word
//!    stands for one value: the one that a single thread leaves if it runs the kept transactions
//!    one after another.
//! 2. Each get, insert and remove of a kept transaction has the reply that it has there.
//! 3. A tidy change of the word writes the value that stands there, so it changes no contents.
//! 4. The cell can be used: [`cell_rows`] has a transaction's certificates, and a field of zeros
//!    may be opened.
//! 5. md_rule makes the steps of [`CellTheory`] on atomic words, as it does for every theory.
#![tactic(auto)]

pub use rows::cell_rows;
pub use theory::{CellTheory, cell_schedules};

mod rows;
mod theory;
