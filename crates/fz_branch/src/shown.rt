//! The variables of the output.
ghost use Rattle.std.specs.Prelude.{◌≡◌, ◌<◌, ◌/◌, ◌↔◌, ◌⊎◌, ℕ, length, map, IsTrue, IfOk};
ghost use Rattle.std.specs.List.{AllByRecursion, list_any, filter, range_with_len};
ghost use Rattle.fz_spec.specs.Instance.{Instance};
ghost use Rattle.fz_bits.specs.Members.{HasMember, words_for};
ghost use Rattle.fz_tree.specs.Rows.{is_term, is_shown};
ghost use Rattle.fz_branch.specs.Plans.{only_shown};
ghost use Rattle.fz_branch.specs.Shown.{AreTheShown};

use fz_bits::BitSet;
use fz_model::{Listed, Part, SearchPart};
use fz_spec::term::Term;
use std::alloc::{AllocError, Global};

/// The variables of a model that its output has.
///
/// # Errors
/// `AllocError` where there is no memory. So it is below.
pub fn shown_in(alloc: Global, model: &fz_model::Model) -> Result<BitSet, AllocError>
    ensures { IfOk result (AreTheShown model.now) }
{
    let size = model.variables().len();
    let mut shown = BitSet::none(alloc, size)?;
    let outputs = model.outputs();
    for output in outputs {
        mark(&mut shown, output.terms(), size);
    }
    Ok(shown)
}

/// Adds the variables among the terms that are below a size.
fn mark(shown: &mut BitSet, terms: &[Term], size: usize)
    requires { length shown.old ≡ words_for size }
    ensures members { (v : ℕ) → v < size → HasMember shown.new v
        ↔ (HasMember shown.old v ⊎ IsTrue (list_any (is_term v) terms.now)) }
    ensures size { length shown.new ≡ length shown.old }
{
    for term in terms {
        add(shown, term, size);
    }
}

/// Adds the variable that a term is, where it is one below a size.
fn add(shown: &mut BitSet, term: &Term, size: usize)
    requires { length shown.old ≡ words_for size }
    ensures members { (v : ℕ) → v < size
        → HasMember shown.new v ↔ (HasMember shown.old v ⊎ IsTrue (is_term v term.now)) }
    ensures size { length shown.new ≡ length shown.old }
{
    let Term::Var(variable) = term else {
        return;
    };
    if *variable as usize >= size {
        return;
    }
    shown.insert(*variable as usize);
}

/// The search parts of a model, cut down to the variables of its output.
pub fn shown_parts(
    alloc: Global,
    model: &fz_model::Model,
    shown: &BitSet,
) -> Result<Vec<SearchPart>, AllocError>
    requires { AreTheShown model.now shown.now }
    ensures { IfOk result (λ v. v.items ≡ map (only_shown model.now) model.now.search) }
{
    let parts = model.search();
    let mut cut = Vec::with_capacity(alloc, parts.len() + 1)?;
    for part in parts {
        let variables = only(alloc, part.variables(), shown)?;
        cut.push(SearchPart::new(Listed::own(variables), part.pick(), part.value()))?;
    }
    Ok(cut)
}

/// The variables of its output, in order of declaration.
pub fn all_shown(
    alloc: Global,
    model: &fz_model::Model,
    shown: &BitSet,
) -> Result<Vec<u32>, AllocError>
    requires { AreTheShown model.now shown.now }
    ensures { IfOk result (λ v. v.items
        ≡ filter (is_shown model.now) (range_with_len 0 (length model.now.variables))) }
{
    let mut variables = Vec::new(alloc);
    for variable in 0..model.variables().len() as u32 {
        if shown.has(variable as usize) {
            variables.push(variable)?;
        }
    }
    Ok(variables)
}

/// Those of some variables that are in a set.
fn only(alloc: Global, variables: &[u32], shown: &BitSet) -> Result<Vec<u32>, AllocError>
    requires within { AllByRecursion (λ v. v / 64 < length shown.now) variables.now }
    ensures { (m : Instance) → AreTheShown m shown.now
        → AllByRecursion (λ v. v < length m.variables) variables.now
        → IfOk result (λ l. l.items ≡ filter (is_shown m) variables.now) }
{
    let mut kept = Vec::new(alloc);
    for variable in variables {
        if shown.has(*variable as usize) {
            kept.push(*variable)?;
        }
    }
    Ok(kept)
}
