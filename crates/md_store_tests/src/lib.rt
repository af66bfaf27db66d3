//! Tests of md_store: stores that are opened, divided, settled, renewed and closed; bodies that are
//! run over them one after another; and the bodies of md_store_trials, beside a store for one thread and
//! on threads. Of fields that are opened and closed at once; of transactions that interleave; and of
//! the examples.
#![tactic(auto)]

#[cfg(test)]
mod tests;
