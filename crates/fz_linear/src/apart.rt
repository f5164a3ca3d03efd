//! Sums that aren't a number.
ghost use Rattle.std.specs.Prelude.{◌≡◌, ◌≢◌, ◌+◌, ◌^◌, ◌<◌, ◌≤◌, ◌↔◌, ◌-ℤ◌, ◌*ℤ◌, IsTrue, length, take, slice_get, Some, IfOk, unsigned_abs};
ghost use Rattle.std.specs.List.{AllByRecursion};
ghost use Rattle.fz_spec.specs.declared.limits.TheConstants.{ELEMENT_LIMIT};
ghost use Rattle.fz_spec.specs.declared.shape.Relation.TheVariants.{NotEqual};
ghost use Rattle.fz_strength.specs.Domains.{term_set, AreDomains, IsTermOf};
ghost use Rattle.fz_strength.specs.Events.{IsFixedIn, AllFixed};
ghost use Rattle.fz_prop.specs.declared.answer.Answer.TheVariants.{Fix};
ghost use Rattle.fz_prop.specs.Answers.{IsCorrectOf};
ghost use Rattle.fz_prop.specs.Stores.{Shrinks, FitsTerm};
ghost use Rattle.fz_linear.specs.Terms.{AreTermsOf};
ghost use Rattle.fz_linear.specs.Precisions.{IsWeighted};
ghost use Rattle.fz_linear.specs.Sums.{SumTruth, IsAnswerSum};
ghost use Rattle.fz_linear.specs.Gaps.{IsUnfixed, IsExcluded, AllOthersFixed, others_sum};

use crate::narrow::{Weighted, ends_of};
use crate::sums::{Ends, product, product_ends};
use fz_num::floor_div;
use fz_prop::terms::{remove, value_of};
use fz_prop::{Answer, Store};
use fz_spec::term::Term;
use std::alloc::AllocError;

/// How many terms have more than one number left, and the place of the one where it is one.
#[derive(Clone, Copy)]
pub enum Unfixed {
    None,
    One(usize),
    Several,
}

/// Which numbers times a factor are a product.
#[derive(Clone, Copy)]
pub enum Excluded {
    None,
    One(i32),
    Each,
}

/// Narrows a store so that a sum isn't a number: where all terms but one are fixed, one number leaves that one.
pub fn keep_apart(store: &mut Store, sum: &Weighted<'_>, number: i32) -> Result<Answer, AllocError>
    requires law { IsWeighted sum.now }
    requires inside { AreTermsOf (length store.old.doms) sum.now.terms.now }
    requires fits { AllByRecursion FitsTerm sum.now.terms.now }
    ensures shrinks { Shrinks store.old store.new }
    ensures correct { IsCorrectOf (SumTruth NotEqual sum.now.factors.now sum.now.terms.now number)
        store.old.doms store.new.doms }
    ensures answer { IfOk result
        (λ r. IsAnswerSum NotEqual sum.now.factors.now sum.now.terms.now number r store.old.doms store.new.doms) }
    ensures still { IfOk result (λ r. r ≡ Fix → store.new ≡ store.old) }
{
    match count_unfixed(store, sum.terms) {
        Unfixed::Several => Ok(Answer::Fix),
        Unfixed::One(place) => exclude(store, sum, number, place),
        Unfixed::None => Ok(compare(store, sum, number)),
    }
}

/// The place of the first term that isn't fixed, and the length where there is none.
fn first_unfixed(store: &Store, terms: &[Term]) -> usize
    requires { AreTermsOf (length store.now.doms) terms.now }
    ensures within { result ≤ length terms.now }
    ensures before { AllFixed store.now.doms (take result terms.now) }
    ensures first { (t : Term)
        → slice_get terms.now result ≡ Some t → IsFixedIn store.now.doms t → ⊥ }
{
    for i in 0..terms.len() {
        if value_of(store, terms[i]).is_none() {
            return i;
        }
    }
    terms.len()
}

/// How many terms have more than one number left, and the place of the one where it is one.
fn count_unfixed(store: &Store, terms: &[Term]) -> Unfixed
    requires { AreTermsOf (length store.now.doms) terms.now }
    ensures { IsUnfixed result store.now.doms terms.now }
{
    let first = first_unfixed(store, terms);
    if first == terms.len() {
        return Unfixed::None;
    }
    let behind = &terms[first + 1..];
    if first_unfixed(store, behind) == behind.len() {
        Unfixed::One(first)
    } else {
        Unfixed::Several
    }
}

/// Whether a sum of fixed terms is a number.
fn compare(store: &Store, sum: &Weighted<'_>, number: i32) -> Answer
    requires law { IsWeighted sum.now }
    requires inside { AreTermsOf (length store.now.doms) sum.now.terms.now }
    requires fixed { AllFixed store.now.doms sum.now.terms.now }
    ensures { IsAnswerSum NotEqual sum.now.factors.now sum.now.terms.now number result
        store.now.doms store.now.doms }
{
    if ends_of(store, sum).least == i128::from(number) {
        Answer::Failed
    } else {
        Answer::Subsumed
    }
}

/// Whether a number is the product of two others.
fn is_product(factor: i32, value: i32, number: i128) -> bool
    ensures { IsTrue result ↔ (factor *ℤ value ≡ number) }
{
    i128::from(product(factor, value)) == number
}

/// Which numbers times a factor are a product.
fn divide(factor: i32, product: i128) -> Excluded
    requires { unsigned_abs product ≤ 2 ^ 100 }
    ensures { IsExcluded result factor product }
{
    if factor == 0 {
        return if product == 0 {
            Excluded::Each
        } else {
            Excluded::None
        };
    }
    let quotient = floor_div(product, i128::from(factor));
    match i32::try_from(quotient) {
        Ok(value) if is_product(factor, value, product) => Excluded::One(value),
        _ => Excluded::None,
    }
}

/// What a term with its factor must not be for the sum not to be a number, where all other terms are fixed.
fn forbidden(store: &Store, sum: &Weighted<'_>, number: i32, place: usize) -> i128
    requires law { IsWeighted sum.now }
    requires inside { AreTermsOf (length store.now.doms) sum.now.terms.now }
    requires place { place < length sum.now.terms.now }
    ensures domains { AreDomains store.now.doms }
    ensures product { result ≡ number -ℤ others_sum store.now.doms sum.now.factors.now sum.now.terms.now place }
    ensures near { unsigned_abs result ≤ 2 ^ 100 }
{
    let Ends { least, .. } = ends_of(store, sum);
    let (low, _) = product_ends(store, sum.factors[place], sum.terms[place]);
    without(number, least, low)
}

/// A number less what is left of a sum without one of its products.
fn without(number: i32, sum: i128, product: i64) -> i128
    requires { unsigned_abs sum ≤ 2 ^ 90 }
    ensures rest { result ≡ number -ℤ (sum -ℤ product) }
    ensures near { unsigned_abs result ≤ 2 ^ 100 }
{
    i128::from(number) - (sum - i128::from(product))
}

/// Removes from the one term that isn't fixed the number that would make the sum a number.
fn exclude(
    store: &mut Store,
    sum: &Weighted<'_>,
    number: i32,
    place: usize,
) -> Result<Answer, AllocError>
    requires law { IsWeighted sum.now }
    requires inside { AreTermsOf (length store.old.doms) sum.now.terms.now }
    requires fits { AllByRecursion FitsTerm sum.now.terms.now }
    requires place { place < length sum.now.terms.now }
    requires others { AllOthersFixed store.old.doms sum.now.terms.now place }
    ensures shrinks { Shrinks store.old store.new }
    ensures correct { IsCorrectOf (SumTruth NotEqual sum.now.factors.now sum.now.terms.now number)
        store.old.doms store.new.doms }
    ensures answer { IfOk result
        (λ r. IsAnswerSum NotEqual sum.now.factors.now sum.now.terms.now number r store.old.doms store.new.doms) }
    ensures settled { IfOk result (λ r. r ≢ Fix) }
{
    let product = forbidden(store, sum, number, place);
    match divide(sum.factors[place], product) {
        Excluded::None => Ok(Answer::Subsumed),
        Excluded::Each => Ok(Answer::Failed),
        Excluded::One(value) => {
            let change = remove(store, sum.terms[place], value)?;
            Ok(Answer::settled(change))
        }
    }
}
