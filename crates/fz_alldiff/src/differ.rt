//! Narrowing a store so that terms are all different.
ghost use Rattle.std.specs.Prelude.{length};
ghost use Rattle.std.specs.List.{AllByRecursion};
ghost use Rattle.fz_strength.specs.Differences.{AreApart};
ghost use Rattle.fz_prop.specs.Answers.{Narrows};
ghost use Rattle.fz_strength.specs.Domains.{IsTermOf};
ghost use Rattle.fz_alldiff.specs.Differing.{IsDifferent};

use crate::close::keep_close;
use crate::far::keep_each;
use crate::span::close_span;
use fz_prop::{Answer, Store};
use fz_spec::term::Term;
use std::alloc::{AllocError, Global};

/// Narrows a store so that terms are all different: no number of a place that is fixed stays at another. Where the numbers of
/// all places lie close together, those that are free are one window; else the number of each place leaves the others.
pub fn keep_different(
    alloc: Global,
    store: &mut Store,
    terms: &[Term],
) -> Result<Answer, AllocError>
    requires { AllByRecursion (IsTermOf (length store.old.doms)) terms.now }
    ensures { Narrows (IsDifferent terms.now) (AreApart terms.now) result store.old store.new }
{
    match close_span(store, terms) {
        Some(span) => keep_close(store, terms, span),
        None => keep_each(alloc, store, terms),
    }
}
