//! Reading and writing block by block, as the system gives and takes bytes.
ghost use Rattle.std.specs.Prelude.{◌≡◌, ◌≢◌, ℕ, IfSome, MatchBool, OnOk, vec_len, length, ◌≤◌, take};
ghost use Rattle.std.specs.Io.KnownBytes.{Appends};
ghost use Rattle.ma_io.specs.Fetch.{FetchTells};

use crate::faults::FetchFault;
use std::io::{ErrorKind, Read, Write};

/// How many bytes are read in one call, at most.
const BLOCK: usize = 64 * 1024;

/// Reads to the end, but never more than one byte past `most`.
pub(crate) fn read_whole<F: Read>(
    file: &mut F,
    into: &mut Vec<u8>,
    most: usize,
) -> Result<(), FetchFault>
    requires { vec_len into.old ≡ 0 }
    ensures told { IfSome (F.remaining file.old) (λ bytes. FetchTells (Some bytes) most into.new.items result) }
    ensures length { OnOk result (length into.new.items ≤ most) }
    ensures there { result ≢ Err FetchFault.Absent }
{
    let mut block = [0u8; BLOCK];
    for _ in 0..u64::MAX {
        let room = most - into.len();
        let limit = room.saturating_add(1).min(BLOCK);
        match file.read(&mut block[..limit]) {
            Ok(0) => return Ok(()),
            Ok(taken) if taken > room => return Err(FetchFault::TooLong),
            Ok(taken) => {
                if into.extend_from_slice(&block[..taken]).is_err() {
                    return Err(FetchFault::Memory);
                }
            }
            Err(error) if error.kind() == ErrorKind::Interrupted => {}
            Err(_) => return Err(FetchFault::Failed),
        }
    }
    Err(FetchFault::Failed)
}

/// Writes all of the bytes, and says whether it did. If not, the front of them may be written.
pub(crate) fn write_whole<W: Write>(to: &mut W, bytes: &[u8]) -> bool
    ensures { MatchBool result (Appends (W.contents to.old) (W.contents to.new) bytes.now) ((n : ℕ) × Appends (W.contents to.old) (W.contents to.new) (take n bytes.now)) }
{
    let mut rest = bytes;
    for _ in 0..u64::MAX {
        if rest.is_empty() {
            return true;
        }
        match to.write(rest) {
            Ok(0) => return false,
            Ok(taken) => rest = &rest[taken..],
            Err(error) if error.kind() == ErrorKind::Interrupted => {}
            Err(_) => return false,
        }
    }
    false
}
