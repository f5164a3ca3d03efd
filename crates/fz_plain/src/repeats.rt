//! Variables that stand twice.
ghost use Rattle.std.specs.Prelude.{◌≡◌, ◌↔◌, ◌+◌, ◌<◌, ◌≤◌, ◌++◌, ℕ, false, length, slice_index, IfOk, OnOk, IsTrue};
ghost use Rattle.std.specs.List.Sorted.{IsPermutation, IsSorted, IsStrictlyIncreasing};
ghost use Rattle.std.specs.Ordering.{nat_cmp};
ghost use Rattle.fz_strength.specs.Events.{variable_of, variables_of};
ghost use Rattle.fz_strength.specs.Sums.{left_terms};
ghost use Rattle.fz_plain.specs.Plain.{HasTwice};

use fz_spec::term::Term;
use std::alloc::{AllocError, Global};

/// Whether a variable stands twice among terms.
///
/// # Errors
/// `AllocError` where there is no memory.
pub fn has_twice(alloc: Global, terms: &[Term], last: Term) -> Result<bool, AllocError>
    ensures { IfOk result (λ b. IsTrue b ↔ HasTwice (left_terms terms.now last)) }
{
    let variables = sorted_variables(alloc, terms, last)?;
    Ok(!are_rising(&variables))
}

/// The variables among terms, in order.
pub fn sorted_variables(alloc: Global, terms: &[Term], last: Term) -> Result<Vec<u32>, AllocError>
    ensures permutation { IfOk result (λ v. IsPermutation (variables_of (left_terms terms.now last)) v.items) }
    ensures order { IfOk result (λ v. IsSorted nat_cmp v.items) }
{
    let mut variables = Vec::with_capacity(alloc, terms.len())?;
    add_variable(&mut variables, last)?;
    for term in terms {
        add_variable(&mut variables, *term)?;
    }
    variables.sort_unstable();
    Ok(variables)
}

/// Adds the variable of a term.
fn add_variable(variables: &mut Vec<u32>, term: Term) -> Result<(), AllocError>
    ensures { OnOk result (variables.new.items ≡ variables.old.items ++ variable_of term) }
{
    if let Term::Var(variable) = term {
        variables.push(variable)?;
    }
    Ok(())
}

/// Whether each number is above the one before it.
fn are_rising(numbers: &[u32]) -> bool
    ensures rising { IsTrue result → IsStrictlyIncreasing numbers.now }
    ensures other { result ≡ false → (k : ℕ) × (k + 1 < length numbers.now)
        × (slice_index numbers.now (k + 1) ≤ slice_index numbers.now k) }
{
    for next in 1..numbers.len() {
        if numbers[next - 1] >= numbers[next] {
            return false;
        }
    }
    true
}
