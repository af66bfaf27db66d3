//! Operations of Michael's lock-free list, as operations of a transaction, over any theory that has
//! lists. After M. M. Michael, "High Performance Dynamic Lock-Free Hash Tables and List-Based Sets"
//! (2002).
//!
//! [`find`] looks for the place of a key, and unlinks removed nodes on its way. [`get`] reads the
//! value of a key, [`insert`] inserts a key that is absent, [`remove`] removes one, and [`put`]
//! sets the value of a key.
//!
//! The comments use these words. A **step** is one atomic step on a shared word. If a transaction
//! **records** a word, it commits only if the word still holds what was seen there. If it
//! **writes** a word, it changes the word when it commits, and the word is its **own** until then.
//! It records at most 128 words and writes at most 128. A node is **removed** if its next word is
//! marked, which means that the value there is odd. The **place** of a key that isn't there is
//! behind the last node with a smaller key.
#![tactic(auto)]

pub use insertion::insert;
pub use lookup::get;
pub use putting::put;
pub use removal::remove;
pub use walk::{Found, find};

mod insertion;
mod lookup;
mod putting;
mod removal;
mod walk;
