//! Numbers that terms are to keep, and the numbers of a list.
ghost use Rattle.std.specs.Prelude.{◌≡◌, ℤ, length, IfOk, OnErr, MatchOption};
ghost use Rattle.fz_spec.specs.Truth.{IsElement};
ghost use Rattle.fz_strength.specs.Domains.{IsTermOf};
ghost use Rattle.fz_prop.specs.Stores.{Shrinks, IsTermChange};
ghost use Rattle.fz_element.specs.Selecting.{Has, AreWithin};

use fz_bits::Window;
use fz_dom::Dom;
use fz_prop::terms::{keep_in, keep_window};
use fz_prop::{Change, Store};
use fz_spec::term::Term;
use std::alloc::AllocError;

/// Numbers that a term is to keep.
#[derive(Drop)]
pub enum Numbers {
    /// Those of a window.
    Near(Window),
    /// Those of a domain.
    Far(Dom),
}

/// Indices, and the numbers at them.
#[derive(Drop)]
pub struct Pairs {
    pub indices: Numbers,
    pub values: Numbers,
}

/// Keeps the numbers of a term that are among others.
pub fn keep(store: &mut Store, term: Term, numbers: &Numbers) -> Result<Change, AllocError>
    requires term { IsTermOf (length store.old.doms) term }
    requires within { AreWithin numbers.now }
    ensures shrinks { Shrinks store.old store.new }
    ensures err { OnErr result (store.new ≡ store.old) }
    ensures change { IfOk result
        (λ r. IsTermChange r term (λ x. Has numbers.now x) store.old store.new) }
{
    match numbers {
        Numbers::Near(window) => keep_window(store, term, *window),
        Numbers::Far(set) => keep_in(store, term, set),
    }
}

/// The number at an index, counted from 1, if there is one.
pub fn number_at(numbers: &[i32], index: i32) -> Option<i32>
    ensures { MatchOption result
        ((n : ℤ) → IsElement index numbers.now n → ⊥) (λ n. IsElement index numbers.now n) }
{
    if index < 1 {
        return None;
    }
    numbers.get((index - 1) as usize).copied()
}
