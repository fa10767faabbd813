//! Reading up to a limit.
ghost use Rattle.std.specs.Prelude.{◌≡◌, ◌+◌, ◌<◌, ◌≤◌, ◌++◌, IfOk, vec_len, length, take};
ghost use Rattle.std.specs.Io.KnownBytes.{Consumes, IsAtEnd};

use crate::FetchFault;
use std::alloc::Global;
use std::io::{ErrorKind, Read};

/// The most bytes that are asked for at once.
const PIECE: usize = 65536;

/// How often a read is tried that the system interrupts.
const TRIES: u32 = 100;

/// The next `limit + 1` bytes of a reader, or all that it has left where it has fewer.
///
/// It takes no byte more from the reader. An error of the reader is `Failed`.
pub(crate) fn read_up_to<F: Read>(
    reader: &mut F,
    alloc: Global,
    limit: usize,
) -> Result<Vec<u8>, FetchFault>
    requires { limit < usize.MAX }
    ensures within { IfOk result (λ bytes. vec_len bytes ≤ limit + 1) }
    ensures taken { IfOk result (λ bytes. Consumes (F.remaining reader.old) (F.remaining reader.new) bytes.items) }
    ensures all { IfOk result (λ bytes. vec_len bytes ≤ limit → IsAtEnd (F.remaining reader.new)) }
{
    let mut buffer = vec![in alloc; 0u8; PIECE.min(limit + 1)]?;
    let mut bytes = Vec::new(alloc);
    while bytes.len() <= limit {
        let wanted = PIECE.min(limit + 1 - bytes.len());
        if append_piece(reader, &mut buffer[..wanted], &mut bytes)? == 0 {
            break;
        }
    }
    Ok(bytes)
}

/// Reads some bytes, appends them and says how many, which is 0 only at the end or without room.
fn append_piece<F: Read>(
    reader: &mut F,
    buffer: &mut [u8],
    bytes: &mut Vec<u8>,
) -> Result<usize, FetchFault>
    ensures bound { IfOk result (λ count. count ≤ length buffer.new) }
    ensures taken { IfOk result (λ count. Consumes (F.remaining reader.old) (F.remaining reader.new) (take count buffer.new)) }
    ensures appended { IfOk result (λ count. bytes.new.items ≡ bytes.old.items ++ take count buffer.new) }
    ensures grown { IfOk result (λ count. vec_len bytes.new ≡ vec_len bytes.old + count) }
    ensures end { IfOk result (λ count. count ≡ 0 → 0 < length buffer.old → IsAtEnd (F.remaining reader.new)) }
{
    let count = read_piece(reader, buffer)?;
    bytes.extend_from_slice(&buffer[..count])?;
    Ok(count)
}

/// Reads some bytes into the buffer and says how many, which is 0 only at the end or without room.
fn read_piece<F: Read>(reader: &mut F, buffer: &mut [u8]) -> Result<usize, FetchFault>
    ensures bound { IfOk result (λ count. count ≤ length buffer.new) }
    ensures taken { IfOk result (λ count. Consumes (F.remaining reader.old) (F.remaining reader.new) (take count buffer.new)) }
    ensures end { IfOk result (λ count. count ≡ 0 → 0 < length buffer.old → IsAtEnd (F.remaining reader.new)) }
{
    for _ in 0..TRIES {
        match reader.read(buffer) {
            Ok(count) => return Ok(count),
            Err(error) => {
                if error.kind() != ErrorKind::Interrupted {
                    return Err(FetchFault::Failed);
                }
            }
        }
    }
    Err(FetchFault::Failed)
}
