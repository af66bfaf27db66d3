//! Laws of a field before a transaction becomes ready in it, if its opening has nothing to tidy:
//! they bound how far the counts of its words have risen. So if the counts of the opening are low,
//! the first attempt meets no word whose count is too high for a change. The calls do nothing when
//! they run.
#![tactic(auto)]

pub use calm::calm_fields_stay_low;
pub use first::first_attempts_stay_low;

mod calm;
mod first;
