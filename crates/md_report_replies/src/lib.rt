//! The replies of the lines of scripts: a place for each line, or a packed list for each caller.
#![tactic(auto)]

mod all_rooms;
mod packed;
mod parts;
mod replies;
mod replies_by_caller;
mod rooms;

pub use packed::{PackedHead, PackedReplies, QUANTITIES, part_at, size_of};
pub use parts::part_in;
pub use replies::Replies;
pub use replies_by_caller::RepliesByCaller;
pub use rooms::{Head, number_at, room_at};
