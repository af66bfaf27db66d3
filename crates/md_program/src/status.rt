//! How a run ended.

use md_history::Front;
use md_program_edge::Status;
use md_store::StorePass;

/// How a run ended, with the fronts of its stores in order, one for each renewal and one for the
/// end. If the run has no report or summary, there are none.
#[derive(Drop)]
pub struct Run {
    pub status: Status,
    pub fronts: Vec<Front<StorePass>>,
}
