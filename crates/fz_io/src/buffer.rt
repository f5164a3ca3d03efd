//! Bytes that wait to be handed on.
ghost use Rattle.std.specs.Prelude.{◌≡◌, ℕ, ◌<◌, ◌≤◌, ◌++◌, [], IfOk, length, take, drop};

use std::alloc::{AllocError, Global};
use std::marker::Model;

/// How many bytes there is room for.
const ROOM: usize = 64 * 1024;

/// Up to 64 KiB, seen as the bytes that it holds. They are put in behind, and let go from the front.
#[derive(Drop)]
pub(crate) struct Buffer {
    bytes: Vec<u8>,
    gone: usize,
}

impl Model for Buffer {
    ghost use Rattle.std.specs.Prelude.{◌≡◌, ℕ, List, ◌<◌, ◌≤◌, length, drop, vec_capacity};

    ghost Value = { List ℕ };

    ghost view = { λ b. drop b.gone b.bytes.items };

    // There is room, and all of it where the buffer is empty.
    ghost invariant = { λ b. (b.gone ≤ length b.bytes.items) × (0 < vec_capacity b.bytes)
        × (b.gone ≡ length b.bytes.items → b.gone ≡ 0) };
}

impl Buffer {
    /// The empty buffer.
    pub(crate) fn new(alloc: Global) -> Result<Buffer, AllocError>
        ensures { IfOk result (λ b. b ≡ []) }
    {
        let bytes = Vec::with_capacity(alloc, ROOM)?;
        Ok(Buffer { bytes, gone: 0 })
    }

    /// The bytes that it holds.
    pub(crate) fn held(&self) -> &[u8]
        ensures { result.now ≡ self.now }
    {
        &self.bytes[self.gone..]
    }

    /// Puts in the first bytes of the piece for which there is room, and says how many. An empty buffer has room for one.
    pub(crate) fn put(&mut self, piece: &[u8]) -> usize
        ensures within { result ≤ length piece.now }
        ensures some { self.old ≡ [] → 0 < length piece.now → 0 < result }
        ensures held { self.new ≡ self.old ++ take result piece.now }
    {
        let count = piece.len().min(self.bytes.capacity() - self.bytes.len());
        match self.bytes.extend_from_slice(&piece[..count]) {
            Ok(()) => count,
            Err(_) => unreachable!(),
        }
    }

    /// Lets the first bytes go.
    pub(crate) fn let_go(&mut self, count: usize)
        requires { count ≤ length self.old }
        ensures { self.new ≡ drop count self.old }
    {
        self.gone += count;
        if self.gone == self.bytes.len() {
            self.bytes.clear();
            self.gone = 0;
        }
    }
}
