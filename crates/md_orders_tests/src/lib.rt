//! Tests of order files: bytes from outside, the commands that they write, and reports to their
//! last byte. And of the order book and the matching book: days of commands over the store for one
//! thread, and the limits. And of rounds of commands, of one caller.
#![tactic(auto)]

#[cfg(test)]
mod tests;
