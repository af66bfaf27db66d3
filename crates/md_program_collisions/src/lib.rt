//! What makes callers collide: small order files with few accounts and levels, gates at which
//! callers wait for each other, and a store in which all keys of a map are in one list. Tests of
//! md_program_tests use them.
#![tactic(auto)]

mod files;
mod gates;
mod playing;
mod shapes;

pub use files::{callers_of, made_file};
pub use gates::{Crossing, Meeting};
pub use playing::play_narrow;
