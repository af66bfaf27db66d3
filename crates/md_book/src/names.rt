//! The names of orders.

ghost use Rattle.std.specs.Prelude.{◌≡◌};
ghost use Rattle.md_book.specs.Commands.{name_of};

/// The name of the order that a caller places at a line, `caller * 2^32 + line`. The transaction of
/// that line has the same number as its tag.
pub fn order_name(caller: u32, line: u32) -> u64
    ensures { result ≡ name_of caller line }
{
    caller as u64 * 0x1_0000_0000 + line as u64
}
