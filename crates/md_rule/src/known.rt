//! What a seat of the table knows.

use md_machine::PassView;

/// What contracts see of a seat of the table. No value of it is made.
#[derive(Drop)]
pub struct Known {
    /// What its pass knows.
    pub view: PassView,
    /// What the two passes knew that were joined into it last.
    pub joined: Option<Parts>,
    /// The words of the field if it has one lane, and otherwise none.
    pub private: Option<Vec<u64>>,
}

/// Two passes before they are joined.
#[derive(Drop)]
pub struct Parts {
    /// The pass that took the other in.
    pub one: PassView,
    /// The pass that was taken in.
    pub other: PassView,
}
