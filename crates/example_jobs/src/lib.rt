//! Jobs that wait by priority, and workers in threads that run them: an example over the library.
#![tactic(auto)]

mod moves;
mod places;
mod run;
mod shifts;

pub use moves::{Move, Step};
pub use places::{FINISHED, LOWEST, MAPS, MAX_JOBS, MAX_WORKERS, PRIORITIES, RUNNING};
pub use run::{all_waiting, run_shift};
pub use shifts::Shift;
