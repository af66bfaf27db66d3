//! The queue of Michael and Scott (PODC 1996) as a theory of the machine: which words are a queue,
//! which values it holds, and which changes of words are an operation on it.
//!
//! What follows for a program whose transactions leave these certificates, by `all_schedules`:
//!
//! 1. However passes interleave, every queue keeps its shape: its nodes stand in one line by their
//!    ranks, and its head and its tail name nodes of the line.
//! 2. Enqueue appends its value, Dequeue takes the first, Front and Line look at the first ones.
//! 3. A tail that lags behind, and a move of it, change no value.
//! 4. The words of a node that isn't placed may be written at will.
//! 5. A placed node keeps its rank, its value, and a next word that isn't 0.
#![tactic(auto)]

pub use rows::worked_rows;
pub use theory::{HasQueues, QueueTheory, queue_facts};

mod rows;
pub mod theory;
