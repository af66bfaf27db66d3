//! The program's edge: its words, how its input is read and its output written, and the status with
//! which it ends. It knows no store, and plays nothing.
#![tactic(auto)]

mod input;
mod output;
mod status;
mod words;

pub use input::{InputFault, read_all};
pub use output::{tell, write_all, write_parts};
pub use status::Status;
pub use words::{Making, Options, read_options};
