//! Tests of the program: whole runs over streams in memory and over real ones, order commands in
//! threads over the concurrent store, and orders that explain what threads did.
#![tactic(auto)]

#[cfg(test)]
mod tests;
