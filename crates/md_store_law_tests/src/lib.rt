//! Tests of md_store_law and md_store_layout: what the store's theory tells of worked schedules,
//! fields that are read off and compacted, and contents that are laid word for word. And of the
//! laws below and above: of lists, hash tables and queues, and of the counts of certificates.
#![tactic(auto)]

#[cfg(test)]
mod tests;
