//! Tests of the three lowest crates. Of md_history: that calls succeed, and that bodies run over
//! the store for one thread through their bounds. Of md_words: the numbers of worked fields, and
//! words taken apart and put together. Of md_outside: that calls succeed, that each impl works
//! through its bound, and what readers and writers of std do that fail once.
#![tactic(auto)]

#[cfg(test)]
mod tests;
