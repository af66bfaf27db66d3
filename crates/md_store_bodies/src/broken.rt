//! The refusal after which a transaction does nothing more.

use md_history::{Op, Stop};

/// The first call that was refused, and why.
#[derive(Clone, Copy)]
pub struct Broken {
    pub stop: Stop,
    pub op: Op,
}
