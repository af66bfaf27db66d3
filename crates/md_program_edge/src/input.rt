//! Reading a whole source.

ghost use Rattle.std.specs.Prelude.{◌≡◌, List, ℕ, IfOk, IsErrOf};
ghost use Rattle.md_program_edge.specs.Streams.{IsRead, IsReadInPart, IsOverlong, HasReadFault};

use md_outside::{Failed, Source};
use std::alloc::Global;

/// Why the input wasn't read to its end.
#[derive(Clone, Copy, Debug, PartialEq, Eq)]
pub enum InputFault {
    /// It has more than 67,108,864 bytes.
    TooLong,
    /// A read failed.
    ReadFault,
    /// There is no memory for its bytes.
    NoMemory,
}

// The most bytes that an input may have.
const MAX_BYTES: usize = 67_108_864;

/// Reads a source to its end and returns its bytes, at most 67,108,864. A read takes at most 8,192
/// bytes. If the source has more bytes than an input may have, the call reads one of them, takes no
/// memory for it, and returns `TooLong`. `InputFault` has the causes of the other errors.
pub fn read_all<I: Source>(alloc: Global, input: &mut I) -> Result<Vec<u8>, InputFault>
    ensures read { IfOk result (λ bytes.
        IsRead I.gives I.left I.faults input.old input.new bytes.items) }
    ensures too_long { IsErrOf result InputFault.TooLong
        → IsOverlong I.gives I.left I.faults input.old input.new }
    ensures read_fault { IsErrOf result InputFault.ReadFault
        → HasReadFault I.gives I.left I.faults input.old input.new }
    ensures no_memory { IsErrOf result InputFault.NoMemory → (bytes : List ℕ)
        × IsReadInPart I.gives I.left I.faults input.old input.new bytes }
{
    let mut bytes = Vec::new(alloc);
    let mut piece = [0; 8192];
    'reads: loop {
        let room = piece.len().min(MAX_BYTES + 1 - bytes.len());
        match input.read(&mut piece[..room]) {
            Ok(0) => return Ok(bytes),
            Ok(count) => {
                if bytes.len() + count > MAX_BYTES {
                    return Err(InputFault::TooLong);
                }
                if bytes.extend_from_slice(&piece[..count]).is_err() {
                    return Err(InputFault::NoMemory);
                }
            }
            Err(Failed) => return Err(InputFault::ReadFault),
        }
    }
}
