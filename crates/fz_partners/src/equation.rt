//! Equations of three terms, and how many pairs of numbers are looked at.
ghost use Rattle.std.specs.Prelude.{◌≡◌, ◌≢◌, ◌↔◌, ◌≤◌, ◌*◌, length, pos, IsTrue};
ghost use Rattle.std.specs.List.{AllByRecursion};
ghost use Rattle.fz_sets.specs.Sets.{set_size};
ghost use Rattle.fz_strength.specs.declared.equation.TheConstants.{FEW_PAIRS};
ghost use Rattle.fz_strength.specs.Domains.{term_set, IsTermOf};
ghost use Rattle.fz_partners.specs.Equations.{AllCount, IsCounting, IsLessened, IsTurned, first_last, nothing, second_last, terms_of};

use fz_prop::Store;
use fz_spec::term::Term;
use fz_strength::equation::FEW_PAIRS;

/// A term with its factor.
#[derive(Clone, Copy)]
pub struct Product {
    pub factor: i32,
    pub term: Term,
}

impl Product {
    /// The term 0.
    pub fn nothing() -> Product
        ensures { result ≡ nothing }
    {
        Product {
            factor: 1,
            term: Term::Num(0),
        }
    }
}

/// Three terms with factors, whose sum is to be a number.
#[derive(Clone, Copy)]
pub struct Equation {
    pub first: Product,
    pub second: Product,
    pub third: Product,
    pub number: i32,
}

/// The same equation, each term with the factor 0 in another place, and 0 instead.
pub fn counting(equation: Equation) -> Equation
    ensures counts { AllCount result }
    ensures counting { IsCounting equation result }
{
    let third = last_counting(equation);
    let first = last_counting(first_last(third));
    last_counting(second_last(first))
}

/// The same equation, the last term 0 where its factor is.
fn last_counting(equation: Equation) -> Equation
    ensures first { result.first ≡ equation.first }
    ensures second { result.second ≡ equation.second }
    ensures counts { result.third.factor ≢ pos 0 }
    ensures lessened { IsLessened equation result }
{
    if equation.third.factor != 0 {
        return equation;
    }
    Equation {
        third: Product::nothing(),
        ..equation
    }
}

/// The same equation, the term last that has most numbers.
pub fn widest_last(store: &Store, equation: Equation) -> Equation
    requires { AllByRecursion (IsTermOf (length store.now.doms)) (terms_of equation) }
    ensures turned { IsTurned equation result }
    ensures first { set_size (term_set store.now.doms result.first.term)
        ≤ set_size (term_set store.now.doms result.third.term) }
    ensures second { set_size (term_set store.now.doms result.second.term)
        ≤ set_size (term_set store.now.doms result.third.term) }
{
    let first = size_of(store, equation.first.term);
    let second = size_of(store, equation.second.term);
    let third = size_of(store, equation.third.term);
    if first <= third && second <= third {
        equation
    } else if second <= first {
        first_last(equation)
    } else {
        second_last(equation)
    }
}

/// The same equation, the first term last.
fn first_last(equation: Equation) -> Equation
    ensures { result ≡ first_last equation }
{
    Equation {
        first: equation.third,
        second: equation.second,
        third: equation.first,
        number: equation.number,
    }
}

/// The same equation, the second term last.
fn second_last(equation: Equation) -> Equation
    ensures { result ≡ second_last equation }
{
    Equation {
        first: equation.first,
        second: equation.third,
        third: equation.second,
        number: equation.number,
    }
}

/// Whether the first two terms have few pairs of numbers.
pub fn are_few(store: &Store, equation: Equation) -> bool
    requires { AllByRecursion (IsTermOf (length store.now.doms)) (terms_of equation) }
    ensures { IsTrue result ↔ ((set_size (term_set store.now.doms equation.first.term)
        * set_size (term_set store.now.doms equation.second.term)) ≤ FEW_PAIRS) }
{
    let first = size_of(store, equation.first.term);
    let second = size_of(store, equation.second.term);
    is_small(first, second)
}

/// Whether a product of numbers above 0 is small.
fn is_small(first: u64, second: u64) -> bool
    requires first { 1 ≤ first }
    requires second { 1 ≤ second }
    ensures { IsTrue result ↔ ((first * second) ≤ FEW_PAIRS) }
{
    first <= FEW_PAIRS && second <= FEW_PAIRS && first * second <= FEW_PAIRS
}

/// How many numbers are left of a term.
fn size_of(store: &Store, term: Term) -> u64
    requires { IsTermOf (length store.now.doms) term }
    ensures size { result ≡ set_size (term_set store.now.doms term) }
    ensures some { 1 ≤ result }
{
    match term {
        Term::Var(variable) => {
            let _ = store.doms();
            store.dom(variable).size()
        }
        Term::Num(_) => 1,
    }
}
