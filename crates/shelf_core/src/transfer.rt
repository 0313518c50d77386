//! Reading a whole entry within a limit, and writing all of some bytes. An interrupted call of the system is made again.
ghost use Rattle.std.specs.Prelude.{◌≡◌, ◌≤◌, length, IfOk, IfSome, OnOk, OnErr, Some, vec_len};
ghost use Rattle.std.specs.Io.{ReadsAtMost, WritesAtMost};
ghost use Rattle.std.specs.Io.KnownBytes.{Appends, ReadConsumes, WriteAppends};
ghost use Rattle.shelf_core.specs.Fetching.{IsWithin, fetched_of};
ghost use Rattle.shelf_core.specs.Transfer.{AppendsPart, ReadsPart};

use crate::bytes::Bytes;
use crate::shelf::{FetchError, Fetched};
use std::alloc::{AllocError, Global};
use std::io;
use std::io::{ErrorKind, Read, Write};

/// The most bytes that one read asks for.
const PIECE: usize = 65536;

// One read that isn't interrupted.
#[tactic(auto, using(crate::proofs::TransferLemmas::keeps_reads))]
fn read_some<R: Read>(reader: &mut R, piece: &mut [u8]) -> Result<usize, FetchError>
    ensures bound { ReadsAtMost result piece.new }
    ensures bytes { ReadConsumes (R.remaining reader.old) (R.remaining reader.new) result piece.new }
{
    for _ in 0..u64::MAX {
        match reader.read(piece) {
            Ok(count) => return Ok(count),
            Err(error) => match error.kind() {
                ErrorKind::Interrupted => {}
                ErrorKind::OutOfMemory => return Err(FetchError::Memory),
                _ => return Err(FetchError::Failed),
            },
        }
    }
    Err(FetchError::Failed)
}

// Reads a part, and appends it to the bytes.
fn read_part<R: Read>(
    reader: &mut R,
    piece: &mut [u8],
    bytes: &mut Vec<u8>,
) -> Result<usize, FetchError>
    requires { 1 ≤ length piece.old }
    ensures { IfOk result
        (ReadsPart (R.remaining reader.old) (R.remaining reader.new) bytes.old.items bytes.new.items) }
{
    let count = read_some(reader, piece)?;
    bytes.extend_from_slice(&piece[..count])?;
    Ok(count)
}

// A buffer of that many bytes.
fn buffer(alloc: Global, size: usize) -> Result<Vec<u8>, AllocError>
    ensures { IfOk result (λ buffer. vec_len buffer ≡ size) }
{
    vec![in alloc; 0u8; size]
}

/// All that the reader has left, where the limit allows. No more than the limit and one byte is read, however much there is.
pub fn read_within<R: Read>(
    reader: &mut R,
    alloc: Global,
    limit: usize,
) -> Result<Fetched, FetchError>
    ensures bound { IfOk result (IsWithin limit) }
    ensures exact { IfOk result (λ fetched.
        IfSome (R.remaining reader.old) (λ bytes. fetched ≡ fetched_of (Some bytes) limit)) }
{
    let mut piece = buffer(alloc, PIECE)?;
    let mut bytes = Vec::new(alloc);
    for _ in 0..u64::MAX {
        let want = (limit - bytes.len()).saturating_add(1).min(piece.len());
        let count = read_part(reader, &mut piece[..want], &mut bytes)?;
        if bytes.len() > limit {
            return Ok(Fetched::TooLong);
        }
        if count == 0 {
            return Ok(Fetched::Bytes(Bytes::from_vec(bytes)));
        }
    }
    Err(FetchError::Failed)
}

// One write that isn't interrupted.
#[tactic(auto, using(crate::proofs::TransferLemmas::keeps_writes))]
fn write_some<W: Write>(writer: &mut W, bytes: &[u8]) -> io::Result<usize>
    ensures bound { WritesAtMost result bytes.now }
    ensures bytes { WriteAppends (W.contents writer.old) (W.contents writer.new) result bytes.now }
{
    for _ in 0..u64::MAX {
        match writer.write(bytes) {
            Ok(count) => return Ok(count),
            Err(error) => {
                if error.kind() != ErrorKind::Interrupted {
                    return Err(error);
                }
            }
        }
    }
    Err(io::Error::from(ErrorKind::TimedOut))
}

/// Writes all of the bytes, and flushes. After an error some first part of them is written.
pub fn write_whole<W: Write>(writer: &mut W, bytes: &[u8]) -> io::Result<()>
    ensures whole { OnOk result
        (Appends (W.contents writer.old) (W.contents writer.new) bytes.now) }
    ensures part { OnErr result
        (AppendsPart (W.contents writer.old) (W.contents writer.new) bytes.now) }
{
    let mut sent = 0;
    while sent < bytes.len() {
        let count = write_some(writer, &bytes[sent..])?;
        if count == 0 {
            return Err(io::Error::from(ErrorKind::WriteZero));
        }
        sent += count;
    }
    writer.flush()
}
