//! Where the bytes of an order file may be cut, so that its records are those of the parts.

ghost use Rattle.std.specs.Prelude.{◌≡◌, ◌≢◌, ◌<◌, ◌≤◌, ◌-◌, ◌++◌, ◌∷◌, Decides, IfSome, length};
ghost use Rattle.std.specs.Prelude.{slice_index_or};
ghost use Rattle.md_orders.specs.Records.{order_records};
ghost use Rattle.md_orders.specs.Version.{version_record};

// The first byte of a byte order mark. Csv drops a mark at the start of what it reads, so no part
// after the first may begin with one.
const MARK: u8 = 0xEF;

// Whether bytes begin as a byte order mark does.
fn begins_as_mark(bytes: &[u8]) -> bool
    ensures { Decides result (slice_index_or bytes.now 0 0 ≡ MARK) }
{
    !bytes.is_empty() && bytes[0] == MARK
}

// Where the line ends that the byte at a place belongs to: just after its line feed.
fn line_end(bytes: &[u8], place: usize) -> Option<usize>
    ensures within { IfSome result (λ end. (place < end) × (end ≤ length bytes.now)) }
    ensures ends { IfSome result (λ end. slice_index_or bytes.now (end - 1) 0 ≡ 10) }
{
    for at in place..bytes.len() {
        if bytes[at] == b'\n' {
            return Some(at + 1);
        }
    }
    None
}

// Cuts bytes into two parts whose records are those of the whole. The cut is at the end of the
// line that the byte at `place` belongs to. `None` if there is no such line, if nothing follows it,
// or if the cut isn't known to be right. A line feed may stand inside a field if there is a double
// quote before it, and neither part may begin with the first byte of a byte order mark.
fn cut(bytes: &[u8], place: usize) -> Option<(&[u8], &[u8])>
    ensures { IfSome result (λ parts. order_records bytes.now
        ≡ order_records parts.0.now ++ order_records parts.1.now) }
{
    let end = line_end(bytes, place)?;
    if end == bytes.len() {
        return None;
    }
    let (low, high) = bytes.split_at(end);
    if begins_as_mark(low) || begins_as_mark(high) || low.contains(&b'"') {
        return None;
    }
    Some((low, high))
}

/// Cuts the first of so many parts off some bytes. The records of both are those of the whole.
/// `None` if there is to be no more than one part, or if no cut is known to be right.
pub(crate) fn cut_off(bytes: &[u8], parts: u32) -> Option<(&[u8], &[u8])>
    ensures several { IfSome result (λ both. 1 < parts) }
    ensures records { IfSome result (λ both. order_records bytes.now
        ≡ order_records both.0.now ++ order_records both.1.now) }
{
    if parts <= 1 {
        return None;
    }
    cut(bytes, bytes.len() / parts as usize)
}

// What stands behind this start of some bytes, if they begin so and no byte order mark may follow.
fn behind<'a>(bytes: &'a [u8], start: &[u8]) -> Option<&'a [u8]>
    ensures { IfSome result (λ rest. (bytes.now ≡ start.now ++ rest.now)
        × (slice_index_or rest.now 0 0 ≢ MARK)) }
{
    if !bytes.starts_with(start) {
        return None;
    }
    let rest = &bytes[start.len()..];
    if begins_as_mark(rest) {
        return None;
    }
    Some(rest)
}

/// The bytes of the lines of a file of version 2: those after its first record. `None` if the file
/// is of version 1, or if its first record isn't written in the plain way, or isn't known to be.
pub(crate) fn lines_of_version_2(bytes: &[u8]) -> Option<&[u8]>
    ensures { IfSome result (λ lines. order_records bytes.now
        ≡ version_record ∷ order_records lines.now) }
{
    match behind(bytes, b"medley,2\n") {
        Some(lines) => Some(lines),
        None => behind(bytes, b"medley,2\r\n"),
    }
}
