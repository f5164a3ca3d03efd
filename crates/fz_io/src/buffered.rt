//! A sink with a buffer before it.
ghost use Rattle.std.specs.Prelude.{◌≡◌, ℕ, ◌-◌, ◌+◌, ◌^◌, ◌<◌, ◌≤◌, [], IfOk, OnOk, OnErr, IsTrue, IsErr, false, true, length, take};
ghost use Rattle.fz_io.specs.Outside.{HasCause, AllFlushed, with_more, flushed_before};
ghost use Rattle.fz_io.specs.Buffered.{buffered_inner, buffered_kept, buffered_taken, buffered_faults, has_failed};

use crate::buffer::Buffer;
use crate::outside::{Failed, Sink};
use std::alloc::{AllocError, Global};

/// A sink that keeps up to 64 KiB of what it takes, so that a piece is no system call, and hands them on to another sink when
/// there is no more room, at each `hand_on` and at each `flush`. Once a call of the other sink has failed nothing is handed on: each further call
/// fails. What is kept when the sink is dropped is lost, so that nothing is written behind a caller's back.
#[derive(Drop)]
pub struct BufferedSink<S: Sink + Drop> {
    inner: S,
    buffer: Buffer,
    has_failed: bool,
    refused: u64,
}

impl<S: Sink + Drop> BufferedSink<S> {
    /// Nothing is taken yet.
    pub fn new(alloc: Global, inner: S) -> Result<BufferedSink<S>, AllocError>
        ensures inner { IfOk result (λ s. buffered_inner s ≡ inner) }
        ensures kept { IfOk result (λ s. buffered_kept s ≡ []) }
        ensures faults { IfOk result (λ s. buffered_faults S.faults s ≡ S.faults inner) }
        ensures fresh { IfOk result (λ s. has_failed s ≡ false) }
    {
        let buffer = Buffer::new(alloc)?;
        Ok(BufferedSink {
            inner,
            buffer,
            has_failed: false,
            refused: 0,
        })
    }

    /// The other sink.
    pub fn inner(&self) -> &S
        ensures { result.now ≡ buffered_inner self.now }
    {
        &self.inner
    }

    /// Hands on all that is kept. After `Failed` what was not handed on is kept.
    fn drain(&mut self) -> Result<(), Failed>
        requires { S.faults self.old.inner < 2 ^ 64 - 1 }
        ensures taken { buffered_taken S.taken self.new ≡ buffered_taken S.taken self.old }
        ensures empty { OnOk result (self.new.buffer ≡ []) }
        ensures flushed { S.flushed self.old.inner ≤ S.flushed self.new.inner }
        ensures refused { self.new.refused ≡ self.old.refused }
        ensures cause { HasCause (S.faults self.old.inner) (S.faults self.new.inner) result }
        ensures fails { OnErr result (self.new.has_failed ≡ true) }
        ensures works { OnOk result (self.new.has_failed ≡ self.old.has_failed) }
    {
        'pieces: while !self.buffer.held().is_empty() {
            match self.inner.write(self.buffer.held()) {
                Ok(count) => self.buffer.let_go(count),
                Err(Failed) => {
                    self.has_failed = true;
                    return Err(Failed);
                }
            }
        }
        Ok(())
    }

    /// Counts a call that is refused, since an earlier one failed.
    fn refuse(&mut self) -> Failed
        requires { self.old.refused < 2 ^ 64 - 1 }
        ensures { self.new ≡ record self.old { refused = self.old.refused + 1 } }
    {
        self.refused += 1;
        Failed
    }
}

impl<S: Sink + Drop> Sink for BufferedSink<S> {
    ghost taken = { buffered_taken S.taken };

    ghost flushed = { λ s. S.flushed s.inner };

    ghost faults = { buffered_faults S.faults };

    ghost flushed_within = { λ s. flushed_before (S.taken s.inner) (S.flushed s.inner) s.buffer
        (S.flushed_within s.inner) };

    fn write(&mut self, piece: &[u8]) -> Result<usize, Failed>
        requires { buffered_faults S.faults self.old < 2 ^ 64 - 1 }
        ensures within { IfOk result (λ n. n ≤ length piece.now) }
        ensures some { IfOk result (λ n. 0 < length piece.now → 0 < n) }
        ensures taken { IfOk result (λ n. buffered_taken S.taken self.new
            ≡ with_more (buffered_taken S.taken self.old) (take n piece.now)) }
        ensures stays { OnErr result
            (buffered_taken S.taken self.new ≡ buffered_taken S.taken self.old) }
        ensures flushed { S.flushed (buffered_inner self.old)
            ≤ S.flushed (buffered_inner self.new) }
        ensures cause { HasCause (buffered_faults S.faults self.old)
            (buffered_faults S.faults self.new) result }
        ensures fails { OnErr result (IsTrue (has_failed self.new)) }
        ensures refuses { IsTrue (has_failed self.old) → IsErr result }
        ensures quiet { IsTrue (has_failed self.old)
            → buffered_inner self.new ≡ buffered_inner self.old }
    {
        if self.has_failed {
            return Err(self.refuse());
        }
        let count = self.buffer.put(piece);
        if count > 0 || piece.is_empty() {
            return Ok(count);
        }
        self.drain()?;
        Ok(self.buffer.put(piece))
    }

    fn hand_on(&mut self) -> Result<(), Failed>
        requires { buffered_faults S.faults self.old < 2 ^ 64 - 1 }
        ensures taken { buffered_taken S.taken self.new ≡ buffered_taken S.taken self.old }
        ensures kept { OnOk result (buffered_kept self.new ≡ []) }
        ensures flushed { S.flushed (buffered_inner self.old)
            ≤ S.flushed (buffered_inner self.new) }
        ensures cause { HasCause (buffered_faults S.faults self.old)
            (buffered_faults S.faults self.new) result }
        ensures fails { OnErr result (IsTrue (has_failed self.new)) }
        ensures refuses { IsTrue (has_failed self.old) → IsErr result }
        ensures quiet { IsTrue (has_failed self.old)
            → buffered_inner self.new ≡ buffered_inner self.old }
    {
        if self.has_failed {
            return Err(self.refuse());
        }
        self.drain()
    }

    fn flush(&mut self) -> Result<(), Failed>
        requires { buffered_faults S.faults self.old < 2 ^ 64 - 1 }
        ensures taken { buffered_taken S.taken self.new ≡ buffered_taken S.taken self.old }
        ensures all { OnOk result
            (AllFlushed (buffered_taken S.taken self.new) (S.flushed (buffered_inner self.new))) }
        ensures kept { OnOk result (buffered_kept self.new ≡ []) }
        ensures flushed { S.flushed (buffered_inner self.old)
            ≤ S.flushed (buffered_inner self.new) }
        ensures cause { HasCause (buffered_faults S.faults self.old)
            (buffered_faults S.faults self.new) result }
        ensures fails { OnErr result (IsTrue (has_failed self.new)) }
        ensures refuses { IsTrue (has_failed self.old) → IsErr result }
        ensures quiet { IsTrue (has_failed self.old)
            → buffered_inner self.new ≡ buffered_inner self.old }
    {
        if self.has_failed {
            return Err(self.refuse());
        }
        self.drain()?;
        match self.inner.flush() {
            Ok(()) => Ok(()),
            Err(Failed) => {
                self.has_failed = true;
                Err(Failed)
            }
        }
    }
}
