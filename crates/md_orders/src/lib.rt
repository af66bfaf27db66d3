//! Order files: their records, the scripts that they write, and scripts that are made from a
//! number.
#![tactic(auto)]

mod cuts;
mod fields;
mod generator;
mod grammar;
mod joins;
mod maker;
mod read;
mod read_in_threads;
mod reading;
mod scripts;
mod segments;
mod version;

pub use fields::number_within;
pub use generator::MAX_MADE_CALLERS;
pub use maker::{Maker, make};
pub use read::{OrderFault, read_orders};
pub use read_in_threads::read_orders_in_threads;
pub use scripts::{Scripts, commands_are_named};
pub use segments::Segments;
