//! Reading a source to its end and writing a whole buffer.
ghost use Rattle.std.specs.Prelude.{◌≡◌, ◌+◌, ◌<◌, ◌≤◌, ◌^◌, IfOk, IsOk, OnOk, OnErr, IsErrOf, length, take, drop, vec_len};
ghost use Rattle.std.specs.Io.KnownBytes.{Appends, Consumes, IsAtEnd, Keeps};
ghost use Rattle.iamf_io.specs.Causes.{HasCause, Rose};
ghost use Rattle.iamf_io.specs.Whole.{AppendsFront, TakesAll, TakesAtMost, TakesCount, TellsWithin, TellsMore, IsOkOrMemory, IsTooLargeOrMemory, ReadCause};

use crate::traits::{Failed, Sink, Source};
use std::alloc::{AllocError, Global};
use thiserror::Error;

/// Why a source was not read to its end.
#[derive(Debug, Drop, Error)]
pub enum ReadError {
    /// The source failed.
    #[error("the source failed")]
    Failed,
    /// The source has more bytes than the limit.
    #[error("the source has more bytes than the limit")]
    TooLarge,
    /// There is no memory for the bytes.
    #[error("out of memory")]
    Memory(AllocError),
}

// How many bytes one read asks for at most.
const PIECE: usize = 65536;

// How many bytes one write passes on at most: systems are slow to take very many at once.
const WRITTEN_AT_ONCE: usize = 262144;

// Makes so many bytes of all, of which the first `read` stay.
fn make_room(all: &mut Vec<u8>, read: usize, end: usize) -> Result<(), AllocError>
    requires { (read ≤ vec_len all.old) × (read ≤ end) }
    ensures room { OnOk result (vec_len all.new ≡ end) }
    ensures kept { OnOk result (take read all.new.items ≡ take read all.old.items) }
{
    all.resize(end, 0)
}

// Reads once, over what stands after the first `read` bytes.
fn read_after<S: Source>(source: &mut S, all: &mut Vec<u8>, read: usize) -> Result<usize, Failed>
    requires { read < vec_len all.old }
    ensures len { vec_len all.new ≡ vec_len all.old }
    ensures kept { take read all.new.items ≡ take read all.old.items }
    ensures within { IfOk result (λ n. read + n ≤ length all.new.items) }
    ensures bytes { IfOk result (λ n. Consumes (S.left source.old) (S.left source.new) (take n (drop read all.new.items))) }
    ensures end { IfOk result (λ n. n ≡ 0 → IsAtEnd (S.left source.new)) }
    ensures none { OnErr result (Keeps (S.left source.old) (S.left source.new)) }
    ensures cause { HasCause (S.faults source.old) (S.faults source.new) result }
{
    source.read(&mut all[read..])
}

/// Reads the source to its end and gives all its bytes, of which there are at most `limit`, below 2^62. The
/// source's count of faults stays as it was.
///
/// # Errors
///
/// - `Failed` only where the source's count of faults rose in this call.
/// - `TooLarge` exactly where the source gave `limit + 1` bytes without a fault; no further read is made.
/// - `Memory` where there is no memory for the bytes.
///
/// At `TooLarge` and `Memory` the count of faults stays as it was. After each error the bytes that were taken,
/// at most `limit + 1`, are lost.
pub fn read_all<S: Source>(alloc: Global, source: &mut S, limit: u64) -> Result<Vec<u8>, ReadError>
    requires { limit < 2 ^ 62 }
    ensures all { IfOk result (λ v. TakesAll (S.left source.old) (S.left source.new) v.items limit) }
    ensures one_more { IsErrOf result ReadError.TooLarge
        → TakesCount (S.left source.old) (S.left source.new) (limit + 1) }
    ensures lost { OnErr result (TakesAtMost (S.left source.old) (S.left source.new) (limit + 1)) }
    ensures cause { ReadCause (S.faults source.old) (S.faults source.new) result }

    // Where no fault was counted, the bytes that the source tells decide the answer.
    ensures within { ¬ (Rose (S.faults source.old) (S.faults source.new))
        → TellsWithin (S.left source.old) limit → IsOkOrMemory result }
    ensures more { ¬ (Rose (S.faults source.old) (S.faults source.new))
        → TellsMore (S.left source.old) limit → IsTooLargeOrMemory result }
{
    let mut all: Vec<u8> = Vec::new(alloc);
    let mut read = 0usize;
    // Each read gives a byte, the end or a fault, so there are at most `limit + 2` of them.
    'reading: loop {
        let room = limit + 1 - read as u64;
        let most = room.min(PIECE as u64) as usize;
        if let Err(e) = make_room(&mut all, read, read + most) {
            return Err(ReadError::Memory(e));
        }
        let count = match read_after(source, &mut all, read) {
            Ok(count) => count,
            Err(Failed) => return Err(ReadError::Failed),
        };
        if count == 0 {
            all.truncate(read);
            return Ok(all);
        }
        read += count;
        if read as u64 > limit {
            return Err(ReadError::TooLarge);
        }
    }
}

/// Writes all of `bytes`, piece by piece. It takes no memory. The sink's count of faults stays as it was.
///
/// # Errors
///
/// `Failed` only where the sink's count of faults rose in this call. Then a front of `bytes` was appended.
pub fn write_all<W: Sink>(sink: &mut W, bytes: &[u8]) -> Result<(), Failed>
    ensures all { OnOk result (Appends (W.held sink.old) (W.held sink.new) bytes.now) }
    ensures front { OnErr result (AppendsFront (W.held sink.old) (W.held sink.new) bytes.now) }
    ensures cause { HasCause (W.faults sink.old) (W.faults sink.new) result }
    ensures succeeds { ¬ (Rose (W.faults sink.old) (W.faults sink.new)) → IsOk result }
{
    let mut at = 0usize;
    while at < bytes.len() {
        let end = bytes.len().min(at + WRITTEN_AT_ONCE);
        at += sink.write(&bytes[at..end])?;
    }
    Ok(())
}
