//! What a run of callers is given.

use std::alloc::{AllocError, Global};

/// What a run of callers is given, and hands down unchanged: the threads and the memory, the lines,
/// the most attempts of a turn (any number; with 0 no turn plays a line), and the gate.
pub struct Play<'a, R, L, G> {
    pub rt: &'a R,
    pub alloc: Global,
    pub lines: &'a L,
    pub attempts: u32,
    pub gate: &'a G,
}

impl<R, L, G> Clone for Play<'_, R, L, G> {
    fn clone(&self) -> Result<Self, AllocError> {
        Ok(*self)
    }
}

impl<R, L, G> Copy for Play<'_, R, L, G> {}
