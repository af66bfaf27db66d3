//! Worked schedules of the machine on a small field: what its definitions say in single cases.
//! Nothing of it runs.
#![tactic(auto)]

pub use rows::{clearing_row, unlinking_row, worked_rows};

mod rows;
