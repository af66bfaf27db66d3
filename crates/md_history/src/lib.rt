//! Operations on maps and queues, histories of transactions, and a store for one thread.
#![tactic(auto)]

mod acts;
mod bodies;
mod calls;
mod contents;
mod engines;
mod entries;
mod fronts;
mod kept;
mod plain;
mod plain_engine;
mod plain_tx;
mod stops;

pub use acts::{Act, Acts, Line, MAX_LINE, Op, Reply};
pub use bodies::Body;
pub use calls::TxCalls;
pub use contents::Contents;
pub use engines::{Engine, fresh_is_empty, pass_is_legal};
pub use entries::{Entry, Fate};
pub use fronts::Front;
pub use plain::{PlainPass, PlainStore};
pub use stops::{Attempt, Limit, Shown, Stop};
