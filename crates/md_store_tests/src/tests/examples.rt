//! What no clause says: that the examples make transfers and finish jobs.

mod bank;
mod shifts;
