//! Contents, laid out as the words of a field. `needed` counts the nodes that contents take, `lay`
//! lays contents, `lay_living` what was gathered from a field, and `compact` lays a field anew
//! without the nodes that its contents don't need.
#![tactic(auto)]

pub use compacting::{compact, lay_living};
pub use laying::lay;
pub use sizes::needed;

mod building;
mod compacting;
mod laying;
mod sizes;
