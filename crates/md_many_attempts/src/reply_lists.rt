//! Lists of the replies of lines.

ghost use Rattle.std.specs.Prelude.{◌≡◌, ◌<◌, ◌^◌, ◌++◌, [], List, length, OnOk};

use std::alloc::{AllocError, Global};

/// A list of replies that grows batch by batch, in whatever form it keeps them.
pub trait ReplyList<R>: Drop {
    /// Its replies, in order.
    ghost listed: { Self → List R };

    /// A list without replies.
    fn new(alloc: Global) -> Self
        ensures { listed result ≡ [] };

    /// The number of its replies, which is below 2^32.
    fn len(&self) -> u32
        requires { length (listed self.now) < 2 ^ 32 }
        ensures { result ≡ length (listed self.now) };

    /// Appends replies. `AllocError` if memory runs out.
    fn append(&mut self, replies: Vec<R>) -> Result<(), AllocError>
        ensures { OnOk result (listed self.new ≡ listed self.old ++ replies.items) };
}

/// The first batch is taken as it is, and each later one is moved behind it.
impl<R: Drop> ReplyList<R> for Vec<R> {
    ghost listed = { λ list. list.items };

    fn new(alloc: Global) -> Self {
        Vec::new(alloc)
    }

    fn len(&self) -> u32 {
        Vec::len(self) as u32
    }

    fn append(&mut self, replies: Vec<R>) -> Result<(), AllocError>
        ensures { OnOk result (self.new.items ≡ self.old.items ++ replies.items) }
    {
        if self.is_empty() {
            *self = replies;
            return Ok(());
        }
        let mut replies = replies;
        Vec::append(self, &mut replies)
    }
}
