//! Adding up equal terms of a sum.
ghost use Rattle.std.specs.Prelude.{◌≡◌, ◌+◌, ◌+ℤ◌, ◌≤◌, ◌++◌, ◌∷◌, [], ◌^◌, ℤ, List, length, sum_by, IfOk, OnOk, MatchOption};
ghost use Rattle.std.specs.List.{AllByRecursion};
ghost use Rattle.std.specs.List.Sorted.{IsPermutation};
ghost use Rattle.fz_spec.specs.Constraints.{term_values};
ghost use Rattle.fz_spec.specs.Instance.{Variable};
ghost use Rattle.fz_spec.specs.Truth.{weighted_sum};
ghost use Rattle.fz_strength.specs.Events.{variables_of};
ghost use Rattle.fz_strength.specs.Sums.{left_factors, left_terms};
ghost use Rattle.fz_says.specs.Fits.{IsKnown};
ghost use Rattle.fz_plain.specs.Entries.{AreAddedUp, AreInOrder, AreNumbersAdded, entries, entry, number_count, number_sum, size_of};
ghost use Rattle.fz_plain.specs.Plain.{AreLarge, HasTwice, IsGathered};

use crate::repeats::has_twice;
use fz_spec::term::Term;
use std::alloc::{AllocError, Global};

/// Factors and terms of a sum.
#[derive(Drop)]
pub struct Terms {
    pub factors: Vec<i32>,
    pub terms: Vec<Term>,
}

/// The same sum, with one term for each variable, where one stands twice in it. Where factors together are too large for a number of 32
/// bits, there is none.
///
/// # Errors
/// `AllocError` where there is no memory.
pub fn gather(
    alloc: Global,
    factors: &[i32],
    terms: &[Term],
    last: Term,
) -> Result<Option<Terms>, AllocError>
    requires { length factors.now ≡ length terms.now }
    ensures { IfOk result (λ o. MatchOption o
        (HasTwice (left_terms terms.now last) → AreLarge (left_factors factors.now last))
        (λ s. IsGathered (left_factors factors.now last) (left_terms terms.now last)
        s.factors.items s.terms.items)) }
{
    if !has_twice(alloc, terms, last)? {
        return Ok(None);
    }
    let entries = entries_of(alloc, factors, terms, last)?;
    let Some(mut sum) = added_up(alloc, &entries)? else {
        return Ok(None);
    };
    add_numbers(&mut sum, factors, terms)?;
    Ok(Some(sum))
}

/// The variables of a sum with their factors, by rising numbers.
fn entries_of(
    alloc: Global,
    factors: &[i32],
    terms: &[Term],
    last: Term,
) -> Result<Vec<(u32, i32)>, AllocError>
    requires { length factors.now ≡ length terms.now }
    ensures permutation { IfOk result (λ v. IsPermutation
        (entries (left_factors factors.now last) (left_terms terms.now last)) v.items) }
    ensures order { IfOk result (λ v. AreInOrder v.items) }
{
    let mut entries = Vec::with_capacity(alloc, terms.len())?;
    add_entry(&mut entries, -1, last)?;
    for (place, term) in terms.iter().enumerate() {
        add_entry(&mut entries, factors[place], *term)?;
    }
    entries.sort_unstable();
    Ok(entries)
}

/// Adds a term with its factor, where it is a variable.
fn add_entry(entries: &mut Vec<(u32, i32)>, factor: i32, term: Term) -> Result<(), AllocError>
    ensures { OnOk result (entries.new.items ≡ entries.old.items ++ entry factor term) }
{
    if let Term::Var(variable) = term {
        entries.push((variable, factor))?;
    }
    Ok(())
}

/// The same sum, with one term for each variable; none where a factor is too large.
fn added_up(alloc: Global, entries: &[(u32, i32)]) -> Result<Option<Terms>, AllocError>
    requires { AreInOrder entries.now }
    ensures { IfOk result (λ o. MatchOption o (2 ^ 31 ≤ sum_by size_of entries.now)
        (λ s. AreAddedUp s.factors.items s.terms.items entries.now)) }
{
    let mut sum = Terms {
        factors: Vec::new(alloc),
        terms: Vec::new(alloc),
    };
    let Some((first, others)) = entries.split_first() else {
        return Ok(Some(sum));
    };
    let mut last = *first;
    for next in others {
        if next.0 == last.0 {
            let Some(factor) = last.1.checked_add(next.1) else {
                return Ok(None);
            };
            last.1 = factor;
        } else {
            push(&mut sum, last.1, Term::Var(last.0))?;
            last = *next;
        }
    }
    push(&mut sum, last.1, Term::Var(last.0))?;
    Ok(Some(sum))
}

/// Adds the terms that are numbers.
fn add_numbers(sum: &mut Terms, factors: &[i32], terms: &[Term]) -> Result<(), AllocError>
    requires size { length factors.now ≡ length terms.now }
    requires sum { length sum.old.factors.items ≡ length sum.old.terms.items }
    ensures { OnOk result (AreNumbersAdded factors.now terms.now sum.old.factors.items sum.old.terms.items
        sum.new.factors.items sum.new.terms.items) }
{
    for (place, term) in terms.iter().enumerate() {
        if let Term::Num(_) = *term {
            push(sum, factors[place], *term)?;
        }
    }
    Ok(())
}

/// One term more.
fn push(sum: &mut Terms, factor: i32, term: Term) -> Result<(), AllocError>
    ensures factors { OnOk result (sum.new.factors.items ≡ sum.old.factors.items ++ factor ∷ []) }
    ensures terms { OnOk result (sum.new.terms.items ≡ sum.old.terms.items ++ term ∷ []) }
{
    sum.factors.push(factor)?;
    sum.terms.push(term)?;
    Ok(())
}
