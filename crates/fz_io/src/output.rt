//! Standard output as a sink.
ghost use Rattle.std.specs.Prelude.{◌≡◌, ℕ, ◌-◌, ◌+◌, ◌^◌, ◌<◌, ◌≤◌, None, IfOk, OnOk, OnErr, length, take};
ghost use Rattle.std.specs.Io.{WritesAtMost};
ghost use Rattle.std.specs.Io.KnownBytes.{Keeps, WriteAppends};
ghost use Rattle.fz_io.specs.Outside.{HasCause};
ghost use Rattle.fz_io.specs.Output.{out_bytes, out_faults};

use crate::outside::{Failed, Sink};
use std::io;
use std::io::{ErrorKind, Write};

/// How often a write that a signal interrupts is tried again.
const TRIES: u32 = 1_000_000;

/// Standard output, or another writer. It doesn't tell the bytes that it took. A write that fails, or that takes no byte of a
/// piece that has one, is a fault; one that a signal interrupts is tried again. Each write goes to the writer at once, so a
/// `BufferedSink` is put before it.
#[derive(Drop)]
pub struct OutSink<W: Write + Drop> {
    writer: W,
    faults: u64,
}

/// Writes a prefix of the piece, and tries again where a signal interrupts.
fn write_again<W: Write>(writer: &mut W, piece: &[u8]) -> io::Result<usize>
    ensures within { WritesAtMost result piece.now }
    ensures bytes { WriteAppends (W.contents writer.old) (W.contents writer.new) result piece.now }
{
    'tries: for _ in 0..TRIES {
        match writer.write(piece) {
            Err(fault) if fault.kind() == ErrorKind::Interrupted => {}
            other => return other,
        }
    }
    Err(io::Error::from(ErrorKind::Interrupted))
}

impl<W: Write + Drop> OutSink<W> {
    /// Nothing is taken yet. For standard output `writer` is the runtime's `stdout()`.
    pub fn new(writer: W) -> OutSink<W>
        ensures faults { out_faults result ≡ 0 }
        ensures writer { out_bytes W.contents result ≡ W.contents writer }
    {
        OutSink { writer, faults: 0 }
    }

    /// How often a call has failed.
    pub fn fault_count(&self) -> u64
        ensures { result ≡ out_faults self.now }
    {
        self.faults
    }

    /// Counts a fault.
    fn fault(&mut self) -> Failed
        requires { self.old.faults < 2 ^ 64 - 1 }
        ensures { self.new ≡ record self.old { faults = self.old.faults + 1 } }
    {
        self.faults += 1;
        Failed
    }
}

impl<W: Write + Drop> Sink for OutSink<W> {
    ghost taken = { λ _. None };

    ghost flushed = { λ _. 0 };

    ghost faults = { λ s. out_faults s };

    ghost flushed_within = { λ _. tt };

    fn write(&mut self, piece: &[u8]) -> Result<usize, Failed>
        requires { out_faults self.old < 2 ^ 64 - 1 }
        ensures within { IfOk result (λ n. n ≤ length piece.now) }
        ensures some { IfOk result (λ n. 0 < length piece.now → 0 < n) }
        ensures cause { HasCause (out_faults self.old) (out_faults self.new) result }
        ensures bytes { OnOk result (WriteAppends (out_bytes W.contents self.old)
            (out_bytes W.contents self.new) result piece.now) }
    {
        match write_again(&mut self.writer, piece) {
            Ok(count) if count > 0 || piece.is_empty() => Ok(count),
            _ => Err(self.fault()),
        }
    }

    fn flush(&mut self) -> Result<(), Failed>
        requires { out_faults self.old < 2 ^ 64 - 1 }
        ensures cause { HasCause (out_faults self.old) (out_faults self.new) result }
        ensures bytes { Keeps (out_bytes W.contents self.old) (out_bytes W.contents self.new) }
    {
        match self.writer.flush() {
            Ok(()) => Ok(()),
            Err(_) => Err(self.fault()),
        }
    }
}
