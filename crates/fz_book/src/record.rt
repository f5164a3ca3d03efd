//! Records.
ghost use Rattle.std.specs.Prelude.{◌≡◌, ◌≤◌, ◌<◌, ◌+◌, ◌-◌, ◌^◌, ◌++◌, ◌∷◌, [], drop, length, option_copied, IfErr, IsOk, OnOk, OnErr};
ghost use Rattle.std.specs.List.{slice_get};
ghost use Rattle.std.specs.Vec.{vec_len, vec_capacity};

use crate::past::Past;
use fz_model::Assignment;
use std::alloc::{AllocError, AllocFailed, Global};
use std::marker::Model;

/// That many assignments can be let go of, and no more.
const MOST_GONE: usize = 1 << 63;

/// What is recorded, in order. The first of it may be let go of: then only contracts see them.
#[derive(Drop)]
pub(crate) struct Record {
    past: Past,
    gone: usize,
    kept: Vec<Assignment>,
}

impl Model for Record {
    ghost use Rattle.std.specs.Prelude.{◌++◌, ◌-◌};
    ghost use Rattle.std.specs.Vec.{vec_len, vec_capacity};
    ghost use Rattle.fz_book.specs.Recorded.{Recorded, IsKept};

    ghost Value = { Recorded };

    ghost view = { λ r. record {
      items = r.past.items ++ r.kept.items;
      gone = r.gone;
      room = vec_capacity r.kept - vec_len r.kept;
    } };

    ghost invariant = { λ r. IsKept r.past.items r.kept.items r.gone };
}

impl Record {
    /// Nothing is recorded yet. It takes no memory.
    pub(crate) fn new(alloc: Global) -> Record
        ensures items { result.items ≡ [] }
        ensures gone { result.gone ≡ 0 }
    {
        Record {
            past: Past::new(),
            gone: 0,
            kept: Vec::new(alloc),
        }
    }

    /// How many are recorded.
    pub(crate) fn len(&self) -> usize
        ensures { result ≡ length self.now.items }
    {
        self.gone + self.kept.len()
    }

    /// How many of the first were let go of.
    pub(crate) fn gone(&self) -> usize
        ensures gone { result ≡ self.now.gone }
        ensures last { self.now.gone ≤ length self.now.items - 1 }
    {
        self.gone
    }

    /// Those that weren't let go of.
    pub(crate) fn kept(&self) -> &[Assignment]
        ensures { result.now ≡ drop self.now.gone self.now.items }
    {
        &self.kept
    }

    /// Those from this place on, none of which was let go of.
    pub(crate) fn from(&self, place: usize) -> &[Assignment]
        requires kept { self.now.gone ≤ place }
        requires within { place ≤ length self.now.items }
        ensures { result.now ≡ drop place self.now.items }
    {
        let (_, rest) = self.kept.split_at(place - self.gone);
        rest
    }

    /// The last that is recorded.
    pub(crate) fn last(&self) -> Option<&Assignment>
        ensures { option_copied result ≡ slice_get self.now.items (length self.now.items - 1) }
    {
        self.kept.last()
    }

    /// Makes room for at least that many more.
    ///
    /// # Errors
    /// `AllocError` where there is no memory.
    pub(crate) fn reserve(&mut self, more: usize) -> Result<(), AllocError>
        ensures room { OnOk result (more ≤ self.new.room) }
        ensures err { OnErr result (self.old.room < more) }
        ensures items { self.new.items ≡ self.old.items }
        ensures gone { self.new.gone ≡ self.old.gone }
    {
        self.kept.reserve(more)?;
        Ok(())
    }

    /// Records an assignment.
    ///
    /// # Errors
    /// `AllocFailed` with the assignment where there is no memory, and no room was made.
    pub(crate) fn push(&mut self, assignment: Assignment) -> Result<(), AllocFailed<Assignment>>
        ensures ok { OnOk result (self.new.items ≡ self.old.items ++ assignment ∷ []) }
        ensures err { OnErr result (self.new.items ≡ self.old.items) }
        ensures back { IfErr result (λ refused. refused.value ≡ assignment) }
        ensures succeeds { 0 < self.old.room → IsOk result }
        ensures gone { self.new.gone ≡ self.old.gone }
    {
        self.kept.push(assignment)?;
        Ok(())
    }

    /// Records these, for which there is room.
    pub(crate) fn append(&mut self, found: &mut Vec<Assignment>)
        requires { vec_len found.old ≤ self.old.room }
        ensures items { self.new.items ≡ self.old.items ++ found.old.items }
        ensures room { self.old.room ≤ self.new.room + vec_len found.old }
        ensures gone { self.new.gone ≡ self.old.gone }
    {
        let _ = self.kept.append(found);
    }

    /// Lets go of all but the last, unless they are more than can be counted.
    pub(crate) fn keep_last(&mut self)
        ensures items { self.new.items ≡ self.old.items }
        ensures gone { self.new.gone ≤ length self.old.items - 1 }
    {
        let Some(last) = self.kept.pop() else {
            return;
        };
        let_go(&mut self.past, &mut self.gone, &mut self.kept);
        let _ = self.kept.push(last);
    }
}

/// Those that are kept are gone, unless they are more than can be counted.
fn let_go(past: &mut Past, gone: &mut usize, kept: &mut Vec<Assignment>)
    requires counted { gone.old ≡ length past.old.items }
    requires few { gone.old < 2 ^ 63 }
    ensures counted { gone.new ≡ length past.new.items }
    ensures few { gone.new < 2 ^ 63 }
    ensures items { past.new.items ++ kept.new.items ≡ past.old.items ++ kept.old.items }
    ensures len { vec_len kept.new ≤ vec_len kept.old }
    ensures capacity { vec_capacity kept.new ≡ vec_capacity kept.old }
{
    if MOST_GONE - *gone <= kept.len() {
        return;
    }
    *gone += kept.len();
    *past = past.with(kept);
    kept.clear();
}
