//! The order book as plain data, apart from the commands of md_book, so that each can show an error
//! of the other, and a search for an order of the lines of a small order file that explains all
//! replies and the book at the end. No clause says what the calls do: they are safe, and they return.
//! Tests of md_program_tests use them to check what threads did.
#![tactic(auto)]

mod books;
mod replays;
mod search;
mod takes;

pub use books::{Book, Order, Sums};
pub use replays::{Replayed, play_in_order};
pub use search::{Orders, Told, lines_told, orders_that_explain};
