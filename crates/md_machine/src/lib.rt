//! The pure machine: what every step on the shared words may do, and what holds after every list of
//! steps. Nothing of it runs. The types are what passes know; the machine and its events are
//! definitions of `specs/`, and the theorem is the contract of `all_schedules`.
#![tactic(auto)]

pub use attempt::{AttemptId, Hand, HistoryEntry, Read, Write};
pub use certificate::{Certificate, Change, Fact, NewNode, TidyChange, WordValue};
pub use node::{PlacedNode, Structure};
pub use opening::Opening;
pub use pass::PassView;
pub use rows::{placed_laws, refused_events};
pub use step::{Kind, Step};
pub use theory::{Theory, all_schedules, schedules_are_serial};

pub mod attempt;
pub mod certificate;
pub mod node;
pub mod opening;
pub mod pass;
mod rows;
pub mod step;
pub mod theory;
