//! A source in memory, some of whose calls fail.
ghost use Rattle.std.specs.Prelude.{◌≡◌, ℕ, ◌-◌, ◌^◌, ◌<◌, ◌≤◌, ◌↔◌, ◌⊎◌, [], None, Some, IsTrue, IsErr, IfOk, OnOk, OnErr, length, max};
ghost use Rattle.fz_io.specs.Outside.{HasCause, Reads, one_more};
ghost use Rattle.fz_io.specs.Texts.{text_of};
ghost use Rattle.fz_io.specs.Calls.{FailsNext, Counts};
ghost use Rattle.fz_io.specs.Memory.{source_texts, source_left, source_selected, source_selections, source_faults, source_calls, source_step};

use crate::calls::Calls;
use crate::outside::{Failed, Source};
use crate::texts::{NamedText, Texts};

/// Named texts in memory. The listed calls fail, and so does selecting a name that no text has.
#[derive(Drop)]
pub struct MemSource {
    texts: Texts,
    selections: u64,
    calls: Calls,
    step: usize,
}

impl MemSource {
    /// No text is selected yet. Of two texts of one name the first counts. `fails` has the numbers of the calls that
    /// fail, counted from 1 over all calls of the source.
    pub fn new(texts: Vec<NamedText>, fails: Vec<u64>) -> MemSource
        ensures texts { source_texts result ≡ text_of texts.items }
        ensures left { source_left result ≡ Some [] }
        ensures selections { source_selections result ≡ 0 }
        ensures faults { source_faults result ≡ 0 }
        ensures made { (source_calls result).made ≡ 0 }
        ensures fails { (source_calls result).fails ≡ fails }
        ensures step { source_step result ≡ 2 ^ 64 - 1 }
    {
        MemSource {
            texts: Texts::new(texts),
            selections: 0,
            calls: Calls::new(fails),
            step: usize::MAX,
        }
    }

    /// The same source, which gives at most that many bytes a read; at least one, also where 0 is asked for.
    pub fn with_step(self, step: usize) -> MemSource
        ensures texts { source_texts result ≡ source_texts self }
        ensures left { source_left result ≡ source_left self }
        ensures selected { source_selected result ≡ source_selected self }
        ensures selections { source_selections result ≡ source_selections self }
        ensures calls { source_calls result ≡ source_calls self }
        ensures step { source_step result ≡ max 1 step }
    {
        MemSource { step, ..self }
    }

    /// How often a call has failed.
    pub fn fault_count(&self) -> u64
        ensures { result ≡ source_faults self.now }
    {
        self.calls.fault_count()
    }
}

impl Source for MemSource {
    ghost texts = { source_texts };

    ghost left = { source_left };

    ghost is_selected = { source_selected };

    ghost selections = { source_selections };

    ghost faults = { source_faults };

    fn select(&mut self, name: &str) -> Result<(), Failed>
        requires { source_faults self.old < 2 ^ 64 - 1 }
        ensures left { OnOk result (source_left self.new ≡ source_texts self.old name.now) }
        ensures selected { OnOk result (IsTrue (source_selected self.new name.now)) }
        ensures counted { source_selections self.new ≡ one_more (source_selections self.old) }
        ensures stays { OnErr result (source_left self.new ≡ source_left self.old) }
        ensures texts { source_texts self.new ≡ source_texts self.old }
        ensures cause { HasCause (source_faults self.old) (source_faults self.new) result }
        ensures fails { IsErr result
            ↔ (FailsNext (source_calls self.old) ⊎ (source_texts self.old name.now ≡ None)) }
        ensures counts { Counts (source_calls self.old) (source_calls self.new) }
    {
        self.selections = self.selections.saturating_add(1);
        self.calls.begin()?;
        if self.texts.select(name) {
            Ok(())
        } else {
            Err(self.calls.fault())
        }
    }

    fn read(&mut self, buf: &mut [u8]) -> Result<usize, Failed>
        requires faults { source_faults self.old < 2 ^ 64 - 1 }
        requires room { 0 < length buf.old }
        ensures within { IfOk result (λ n. n ≤ length buf.old) }
        ensures moves { IfOk result
            (λ n. Reads n (source_left self.old) (source_left self.new) buf.new) }
        ensures selected { source_selected self.new ≡ source_selected self.old }
        ensures counted { source_selections self.new ≡ source_selections self.old }
        ensures stays { OnErr result (source_left self.new ≡ source_left self.old) }
        ensures texts { source_texts self.new ≡ source_texts self.old }
        ensures cause { HasCause (source_faults self.old) (source_faults self.new) result }
        ensures fails { IsErr result ↔ FailsNext (source_calls self.old) }
        ensures counts { Counts (source_calls self.old) (source_calls self.new) }
        ensures step { IfOk result (λ n. n ≤ source_step self.old) }
    {
        self.calls.begin()?;
        Ok(self.texts.read(buf, self.step.max(1)))
    }
}
