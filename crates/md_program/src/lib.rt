//! The program `medley` as a library: its runs and their answers. Its words, its reads and writes, and
//! its statuses are those of md_program_edge.
#![tactic(auto)]

mod play;
mod program;
mod report;
mod runs;
mod status;
mod streams;

pub use md_program_edge::{Making, Options, Status, read_options};
pub use program::{exit_of_program, run_program};
pub use runs::run;
pub use status::Run;
pub use streams::exit_over;
