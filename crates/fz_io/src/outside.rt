//! What a run reads from and prints to.
ghost use Rattle.std.specs.Prelude.{◌≡◌, ℕ, ◌-◌, ◌^◌, ◌<◌, ◌≤◌, Bool, IsTrue, List, Option, IfOk, OnOk, OnErr, length, take};
ghost use Rattle.fz_io.specs.Outside.{HasCause, Reads, FlushedWithin, AllFlushed, with_more, one_more};

/// A call of a source or a sink failed.
#[derive(Debug, Clone, Copy, PartialEq, Eq, Drop)]
pub struct Failed;

/// Texts that have names, read in pieces. Each call asks that the count of faults is below 2^64 - 1.
pub trait Source {
    /// The text of each name, where it is told. No call changes it.
    ghost texts: { Self → List ℕ → Option (List ℕ) };
    /// The bytes left of the selected text, where they are told.
    ghost left: { Self → Option (List ℕ) };
    /// Whether the text of this name is the selected one.
    ghost is_selected: { Self → List ℕ → Bool };
    /// How often `select` was called. At the greatest number that fits 64 bits the count stands still.
    ghost selections: { Self → ℕ };
    /// How often a call has failed.
    ghost faults: { Self → ℕ };

    /// Makes the whole text of that name the bytes left. After `Failed` the bytes left are as they were.
    fn select(&mut self, name: &str) -> Result<(), Failed>
        requires { faults self.old < 2 ^ 64 - 1 }
        ensures left { OnOk result (left self.new ≡ texts self.old name.now) }
        ensures selected { OnOk result (IsTrue (is_selected self.new name.now)) }
        ensures counted { selections self.new ≡ one_more (selections self.old) }
        ensures stays { OnErr result (left self.new ≡ left self.old) }
        ensures texts { texts self.new ≡ texts self.old }
        ensures cause { HasCause (faults self.old) (faults self.new) result };

    /// Moves the first bytes left into the front of the buffer, and answers how many: 0 exactly where none is left.
    /// After `Failed` the bytes left are as they were.
    fn read(&mut self, buf: &mut [u8]) -> Result<usize, Failed>
        requires faults { faults self.old < 2 ^ 64 - 1 }
        requires room { 0 < length buf.old }
        ensures within { IfOk result (λ n. n ≤ length buf.old) }
        ensures moves { IfOk result (λ n. Reads n (left self.old) (left self.new) buf.new) }
        ensures selected { is_selected self.new ≡ is_selected self.old }
        ensures counted { selections self.new ≡ selections self.old }
        ensures stays { OnErr result (left self.new ≡ left self.old) }
        ensures texts { texts self.new ≡ texts self.old }
        ensures cause { HasCause (faults self.old) (faults self.new) result };
}

/// Takes bytes in pieces. Each call asks that the count of faults is below 2^64 - 1.
pub trait Sink {
    /// The bytes taken, where they are told.
    ghost taken: { Self → Option (List ℕ) };
    /// How many of them are flushed.
    ghost flushed: { Self → ℕ };
    /// How often a call has failed.
    ghost faults: { Self → ℕ };

    /// Takes a prefix of the piece, at least one byte of a piece that isn't empty, and answers its length. After
    /// `Failed` no byte was taken.
    fn write(&mut self, piece: &[u8]) -> Result<usize, Failed>
        requires { faults self.old < 2 ^ 64 - 1 }
        ensures within { IfOk result (λ n. n ≤ length piece.now) }
        ensures some { IfOk result (λ n. 0 < length piece.now → 0 < n) }
        ensures taken { IfOk result
            (λ n. taken self.new ≡ with_more (taken self.old) (take n piece.now)) }
        ensures stays { OnErr result (taken self.new ≡ taken self.old) }
        ensures flushed { flushed self.old ≤ flushed self.new }
        ensures cause { HasCause (faults self.old) (faults self.new) result };

    /// Flushes all that was taken, where it answers Ok. It takes nothing.
    fn flush(&mut self) -> Result<(), Failed>
        requires { faults self.old < 2 ^ 64 - 1 }
        ensures taken { taken self.new ≡ taken self.old }
        ensures all { OnOk result (AllFlushed (taken self.new) (flushed self.new)) }
        ensures flushed { flushed self.old ≤ flushed self.new }
        ensures cause { HasCause (faults self.old) (faults self.new) result };

    /// Whether what was taken is to be handed on by now. A sink that keeps nothing back never asks for it.
    fn is_due(&self) -> bool {
        false
    }

    /// Hands on what was taken to where its reader finds it. It takes nothing, and flushes nothing that it has to tell.
    fn hand_on(&mut self) -> Result<(), Failed>
        requires { faults self.old < 2 ^ 64 - 1 }
        ensures taken { taken self.new ≡ taken self.old }
        ensures flushed { flushed self.old ≤ flushed self.new }
        ensures cause { HasCause (faults self.old) (faults self.new) result }
    {
        Ok(())
    }

    // No more bytes are flushed than were taken.
    ghost flushed_within: { (s : Self) → FlushedWithin (taken s) (flushed s) };
}
