//! The tags of lines.

ghost use Rattle.std.specs.Prelude.{◌≡◌};
ghost use Rattle.md_many_attempts.specs.Tags.{tag_of};

/// The tag of an attempt at a caller's line, `caller * 2^32 + line`. Each line of each caller has a
/// tag of its own.
pub fn line_tag(caller: u32, line: u32) -> u64
    ensures { result ≡ tag_of caller line }
{
    caller as u64 * 4_294_967_296 + line as u64
}
