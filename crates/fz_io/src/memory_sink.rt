//! A sink in memory, some of whose calls fail.
ghost use Rattle.std.specs.Prelude.{◌≡◌, ℕ, ◌-◌, ◌^◌, ◌<◌, ◌≤◌, ◌↔◌, [], Some, IsErr, IfOk, OnOk, OnErr, length, take, min, max};
ghost use Rattle.fz_io.specs.Outside.{HasCause, AllFlushed, FlushedWithin, with_more};
ghost use Rattle.fz_io.specs.Calls.{FailsNext, Counts};
ghost use Rattle.fz_io.specs.Memory.{sink_taken, sink_flushed, sink_faults, sink_calls, sink_step, min-le};

use crate::calls::Calls;
use crate::outside::{Failed, Sink};
use std::alloc::Global;

/// Takes pieces, into memory. The listed calls fail, and so does a write for which there is no memory.
#[derive(Drop)]
pub struct MemSink {
    bytes: Vec<u8>,
    flushed: usize,
    calls: Calls,
    step: usize,
}

impl MemSink {
    /// Nothing is taken yet. `fails` has the numbers of the calls that fail, counted from 1 over all calls of the sink.
    pub fn new(alloc: Global, fails: Vec<u64>) -> MemSink
        ensures taken { sink_taken result ≡ Some [] }
        ensures flushed { sink_flushed result ≡ 0 }
        ensures faults { sink_faults result ≡ 0 }
        ensures made { (sink_calls result).made ≡ 0 }
        ensures fails { (sink_calls result).fails ≡ fails }
        ensures step { sink_step result ≡ 2 ^ 64 - 1 }
    {
        MemSink {
            bytes: Vec::new(alloc),
            flushed: 0,
            calls: Calls::new(fails),
            step: usize::MAX,
        }
    }

    /// The same sink, which takes at most that many bytes a write; at least one, also where 0 is asked for.
    pub fn with_step(self, step: usize) -> MemSink
        ensures taken { sink_taken result ≡ sink_taken self }
        ensures flushed { sink_flushed result ≡ sink_flushed self }
        ensures calls { sink_calls result ≡ sink_calls self }
        ensures step { sink_step result ≡ max 1 step }
    {
        MemSink { step, ..self }
    }

    /// The bytes taken so far.
    pub fn bytes(&self) -> &[u8]
        ensures { sink_taken self.now ≡ Some result.now }
    {
        &self.bytes
    }

    /// How many of the bytes taken are flushed.
    pub fn flushed_count(&self) -> usize
        ensures { result ≡ sink_flushed self.now }
    {
        self.flushed.min(self.bytes.len())
    }

    /// How often a call has failed.
    pub fn fault_count(&self) -> u64
        ensures { result ≡ sink_faults self.now }
    {
        self.calls.fault_count()
    }
}

impl Sink for MemSink {
    ghost taken = { sink_taken };

    ghost flushed = { sink_flushed };

    ghost faults = { sink_faults };

    ghost flushed_within = { λ s. min-le s.flushed (length s.bytes.items) };

    fn write(&mut self, piece: &[u8]) -> Result<usize, Failed>
        requires { sink_faults self.old < 2 ^ 64 - 1 }
        ensures within { IfOk result (λ n. n ≤ length piece.now) }
        ensures some { IfOk result (λ n. 0 < length piece.now → 0 < n) }
        ensures taken { IfOk result
            (λ n. sink_taken self.new ≡ with_more (sink_taken self.old) (take n piece.now)) }
        ensures stays { OnErr result (sink_taken self.new ≡ sink_taken self.old) }
        ensures flushed { sink_flushed self.old ≤ sink_flushed self.new }
        ensures cause { HasCause (sink_faults self.old) (sink_faults self.new) result }
        ensures step { IfOk result (λ n. n ≡ min (sink_step self.old) (length piece.now)) }
        ensures fails { FailsNext (sink_calls self.old) → IsErr result }
        ensures counts { Counts (sink_calls self.old) (sink_calls self.new) }
    {
        self.calls.begin()?;
        let count = piece.len().min(self.step.max(1));
        match self.bytes.extend_from_slice(&piece[..count]) {
            Ok(()) => Ok(count),
            Err(_) => Err(self.calls.fault()),
        }
    }

    fn flush(&mut self) -> Result<(), Failed>
        requires { sink_faults self.old < 2 ^ 64 - 1 }
        ensures taken { sink_taken self.new ≡ sink_taken self.old }
        ensures all { OnOk result (AllFlushed (sink_taken self.new) (sink_flushed self.new)) }
        ensures flushed { sink_flushed self.old ≤ sink_flushed self.new }
        ensures cause { HasCause (sink_faults self.old) (sink_faults self.new) result }
        ensures fails { IsErr result ↔ FailsNext (sink_calls self.old) }
        ensures counts { Counts (sink_calls self.old) (sink_calls self.new) }
    {
        self.calls.begin()?;
        self.flushed = self.bytes.len();
        Ok(())
    }
}
