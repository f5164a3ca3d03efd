//! Whole texts from a source, and whole pieces to a sink.
ghost use Rattle.std.specs.Prelude.{◌≡◌, ℕ, ◌-◌, ◌^◌, ◌<◌, ◌≤◌, IfOk, OnOk, OnErr, length, take};
ghost use Rattle.fz_io.specs.Outside.{HasCause, with_more};
ghost use Rattle.fz_io.specs.Whole.{IsWhole, HasReadCause, LeavesRest};

use crate::outside::{Failed, Sink, Source};
use std::alloc::{AllocError, Global};

/// What reading a whole text comes to.
#[derive(Drop)]
pub enum Whole {
    /// All the bytes that were left.
    Bytes(Vec<u8>),
    /// More than the limit were left: the first of them, one more than the limit.
    TooLong(Vec<u8>),
    /// A call of the source failed.
    Failed,
}

/// How many bytes are asked for at once.
const PIECE: usize = 64 * 1024;

/// Reads to the end of the selected text, or to `limit + 1` bytes. After being out of memory, as after a fault, the bytes
/// that were read are gone from the bytes left.
pub fn read_all<R: Source>(alloc: Global, source: &mut R, limit: usize) -> Result<Whole, AllocError>
    requires { R.faults source.old < 2 ^ 64 - 1 }
    ensures whole { IfOk result (λ w. IsWhole limit (R.left source.old) (R.left source.new) w) }
    ensures cause { IfOk result (λ w. HasReadCause (R.faults source.old) (R.faults source.new) w) }
    ensures texts { R.texts source.new ≡ R.texts source.old }
    ensures selected { R.is_selected source.new ≡ R.is_selected source.old }
    ensures counted { R.selections source.new ≡ R.selections source.old }
    ensures memory_count { OnErr result (R.faults source.new ≡ R.faults source.old) }
    ensures memory_left { OnErr result (LeavesRest limit (R.left source.old) (R.left source.new)) }
{
    let mut bytes = Vec::new(alloc);
    let mut buffer = [0u8; PIECE];
    'pieces: while bytes.len() <= limit {
        let wanted = (limit - bytes.len()).min(PIECE - 1) + 1;
        match source.read(&mut buffer[..wanted]) {
            Ok(0) => return Ok(Whole::Bytes(bytes)),
            Ok(count) => bytes.extend_from_slice(&buffer[..count])?,
            Err(Failed) => return Ok(Whole::Failed),
        }
    }
    Ok(Whole::TooLong(bytes))
}

/// Writes the whole piece. After `Failed` a prefix of it was taken, which is not all of it.
pub fn put_all<S: Sink>(sink: &mut S, piece: &[u8]) -> Result<(), Failed>
    requires { S.faults sink.old < 2 ^ 64 - 1 }
    ensures taken { OnOk result (S.taken sink.new ≡ with_more (S.taken sink.old) piece.now) }
    ensures prefix { OnErr result ((k : ℕ) × (k < length piece.now)
        × (S.taken sink.new ≡ with_more (S.taken sink.old) (take k piece.now))) }
    ensures flushed { S.flushed sink.old ≤ S.flushed sink.new }
    ensures cause { HasCause (S.faults sink.old) (S.faults sink.new) result }
{
    let mut at = 0;
    'pieces: while at < piece.len() {
        at += sink.write(&piece[at..])?;
    }
    Ok(())
}
