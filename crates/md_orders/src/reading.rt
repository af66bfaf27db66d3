//! The records of a text, read one by one.

ghost use Rattle.std.specs.Prelude.{◌≡◌, ℕ, List, [], true, IfOk};
ghost use Rattle.csv.specs.Reading.{error_kind, stops_reader};
ghost use Rattle.csv.specs.Records.{fields_of};
ghost use Rattle.md_orders.specs.Records.{Row};
ghost use Rattle.md_orders.specs.Rows.{IsReadSoFar, IsNext};

use csv::{ByteRecord, Error, ErrorKind, Reader, ReaderBuilder};
use std::alloc::{AllocError, Global};

/// A reader of a text, which has read nothing so far. The text has no header row, and its records
/// may have any length.
pub(crate) fn reader_of(alloc: Global, bytes: &[u8]) -> Reader<&[u8]>
    ensures { IsReadSoFar bytes.now result [] }
{
    ReaderBuilder::new()
        .has_headers(false)
        .flexible(true)
        .from_reader(alloc, bytes)
}

// A read of a slice by a flexible reader fails only when it is out of memory.
fn out_of_memory(error: &Error) -> AllocError
    requires { stops_reader (error_kind error.now) ≡ true }
{
    match error.kind() {
        ErrorKind::OutOfMemory | ErrorKind::Io(_) => AllocError,
        _ => unreachable!(),
    }
}

/// Reads the next record of a text. The result is false if there is none, and `AllocError` if
/// memory runs out.
pub(crate) fn read_row(reader: &mut Reader<&[u8]>, row: &mut ByteRecord) -> Result<bool, AllocError>
    requires { (bytes : List ℕ) × (rows : List Row) × IsReadSoFar bytes reader.old rows }
    ensures { IfOk result (λ found. (bytes : List ℕ) → (rows : List Row)
        → IsReadSoFar bytes reader.old rows
        → IsNext bytes rows reader.new (fields_of row.new) found) }
{
    match reader.read_byte_record(row) {
        Ok(found) => Ok(found),
        Err(error) => Err(out_of_memory(&error)),
    }
}
