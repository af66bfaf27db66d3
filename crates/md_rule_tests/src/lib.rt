//! Tests of md_rule, and of the small crates over it: passes that change one word in two threads,
//! the pass of an only lane, lanes that are split and joined, the theory of the cell, tickets,
//! nodes and attempts that are taken, and transactions that stall and are cleared. And of md_nbtc
//! on fields of the cell: each call of a transaction, at its limits too.
#![tactic(auto)]

#[cfg(test)]
mod tests;
