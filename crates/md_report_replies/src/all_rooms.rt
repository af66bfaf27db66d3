//! The rooms of the callers' lines.

ghost use Rattle.std.specs.Prelude.{◌≡◌, ◌<◌, ◌≤◌, ◌+◌, ◌^◌, length, IfOk};
ghost use Rattle.md_report_replies.specs.Rooms.{unset_rooms_after};

use crate::rooms::ReplyRooms;
use md_orders::Scripts;
use std::alloc::{AllocError, Global};

/// The rooms of the `count` callers after the first `before`, with no reply.
pub(crate) fn rooms_of_callers(
    alloc: Global,
    scripts: &Scripts,
    before: u32,
    count: u32,
) -> Result<Vec<ReplyRooms>, AllocError>
    requires there { before + count ≤ length scripts.now }
    requires few { before + count < 2 ^ 32 }
    ensures { IfOk result (λ rooms. rooms.items ≡ unset_rooms_after scripts.now before count) }
{
    let mut rooms = Vec::with_capacity(alloc, count as usize)?;
    for earlier in 0..count {
        let caller = before + earlier + 1;
        rooms.push(ReplyRooms::empty(alloc, scripts.stored(caller))?)?;
    }
    Ok(rooms)
}
