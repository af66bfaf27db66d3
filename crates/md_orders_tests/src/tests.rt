//! What no clause says: that calls succeed, and bytes, commands, days and reports from outside.

mod book;
mod in_range;
mod in_threads;
mod longest;
mod making;
mod matching;
mod packed;
mod packing;
mod reading;
mod reading_in_threads;
mod reports;
mod rounds;
mod shown;
