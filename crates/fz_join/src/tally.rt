//! How often each part has run.
ghost use Rattle.std.specs.Prelude.{◌≡◌, IfOk, IfSome, IfNone, OnOk, is_some, count_by};
ghost use Rattle.std.specs.List.{AllByRecursion};
ghost use Rattle.fz_part.specs.Texts.{part_text};
ghost use Rattle.fz_join.specs.Joins.{is_called};
ghost use Rattle.fz_join.specs.Machine.{counted, none_ran};
ghost use Rattle.fz_join.specs.Tallies.{times_of};

use fz_part::Part;
use std::alloc::{AllocError, Global};
use std::collections::BTreeMap;

/// How often each part has run, by its text. Found in time that grows as the logarithm of their number.
#[derive(Drop)]
pub(crate) struct Tally {
    times: BTreeMap<Vec<u8>, u8>,
}

impl Tally {
    /// None has run. `None` exactly where two parts have the same text.
    pub(crate) fn new(alloc: Global, parts: &[Part]) -> Result<Option<Tally>, AllocError>
        ensures none_ran { IfOk result (λ made. IfSome made (λ t. times_of t ≡ none_ran parts.now)) }
        ensures different { IfOk result (λ made. IfSome made (λ t.
            AllByRecursion (λ p. count_by (is_called (part_text p)) parts.now ≡ 1) parts.now)) }
        ensures same { IfOk result (λ made. IfNone made
            (AllByRecursion (λ p. count_by (is_called (part_text p)) parts.now ≡ 1) parts.now → ⊥)) }
    {
        let mut times = BTreeMap::new(alloc);
        for part in parts {
            let mut text = Vec::new(alloc);
            part.print(&mut text)?;
            if times.insert(text, 0)?.is_some() {
                return Ok(None);
            }
        }
        Ok(Some(Tally { times }))
    }

    /// How often the part of this text has run, where there is one.
    pub(crate) fn times(&self, text: &[u8]) -> Option<u8>
        ensures { result ≡ times_of self.now text.now }
    {
        self.times.get(text).copied()
    }

    /// Counts one run more of the part of this text. Whether there is one.
    pub(crate) fn count(&mut self, text: &[u8]) -> bool
        ensures known { result ≡ is_some (times_of self.old text.now) }
        ensures counted { times_of self.new ≡ counted text.now (times_of self.old) }
    {
        match self.times.get_mut(text) {
            Some(times) => {
                *times = times.saturating_add(1);
                true
            }
            None => false,
        }
    }
}
