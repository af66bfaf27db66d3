//! A run of callers in its course.

use md_history::{Engine, Front};

/// A run of callers in its course: the engine with the pass of all its lanes, the fronts of the
/// engines before it, and how many lines each caller has played.
#[derive(Drop)]
pub(crate) struct Course<E: Engine> {
    pub(crate) engine: E,
    pub(crate) pass: E::Pass,
    pub(crate) fronts: Vec<Front<E::Pass>>,
    pub(crate) done: Vec<u32>,
    /// The engine is to be renewed before the next round.
    pub(crate) worn: bool,
}
