//! What is said once more, to a propagator that looks at more.
ghost use Rattle.std.specs.Prelude.{◌≡◌, ◌↔◌, ◌<◌, ◌∷◌, ◌&&◌, ◌+ℤ◌, [], false, get_or, int_le, int_lt, length, nat_lt, negsuc, pos, IsTrue};
ghost use Rattle.std.specs.List.{list_all};
ghost use Rattle.fz_dom.specs.Shape.{greatest, least};
ghost use Rattle.fz_spec.specs.declared.term.Term.TheVariants.{Num};
ghost use Rattle.fz_strength.specs.Sayings as said;
ghost use Rattle.fz_strength.specs.Sums.{left_factors, left_terms};
ghost use Rattle.fz_says.specs.Said.{said_by};
ghost use Rattle.fz_engine.specs.Stronger as stronger;

use fz_dom::Dom;
use fz_model::Variable;
use fz_says::Saying;
use fz_spec::limits::ELEMENT_LIMIT;
use fz_spec::shape::Relation;
use fz_spec::term::Term;

/// What is said once more.
#[derive(Clone, Copy)]
pub enum More<'m> {
    Nothing,
    One(Saying<'m>),
    Two(Saying<'m>, Saying<'m>),
    /// The sum of terms is a number.
    Total(&'m [Term], i32),
}

/// What is said once more: that terms differ, by their bounds, of inverses those of both lists; a sum of two or three terms, by their
/// numbers, where the constraint asks for whole domains and the sum's own propagator doesn't keep them; and the sum of the counts of
/// a closed cover.
pub fn said_once_more<'m>(saying: &Saying<'m>, whole: bool, variables: &[Variable]) -> More<'m>
    ensures { stronger.more_by result
        ≡ stronger.said_once_more variables.now whole (said_by saying.now) }
{
    match saying {
        Saying::Differ(terms) => More::One(Saying::DifferByBounds(terms)),
        Saying::Inverse(firsts, seconds) => More::Two(
            Saying::DifferByBounds(firsts),
            Saying::DifferByBounds(seconds),
        ),
        Saying::Sum(Relation::Equal, factors, terms, last) => {
            if whole && is_short(terms, *last) && !is_kept_whole(factors, terms, *last, variables) {
                More::One(Saying::SumByNumbers(factors, terms, *last))
            } else {
                More::Nothing
            }
        }
        Saying::Count(terms, cover, counts) => total_of(terms, cover, counts, variables),
        _ => More::Nothing,
    }
}

/// That the counts of a closed cover add up to the number of places.
fn total_of<'m>(
    terms: &[Term],
    cover: &[i32],
    counts: &'m [Term],
    variables: &[Variable],
) -> More<'m>
    ensures { stronger.more_by result ≡ stronger.said_once_more variables.now false
        (said.Count terms.now cover.now counts.now) }
{
    if terms.len() <= ELEMENT_LIMIT
        && counts.len() <= ELEMENT_LIMIT
        && is_closed(terms, cover, variables)
    {
        More::Total(counts, terms.len() as i32)
    } else {
        More::Nothing
    }
}

/// Whether a cover has its values one after the other, and terms have no others.
fn is_closed(terms: &[Term], cover: &[i32], variables: &[Variable]) -> bool
    ensures { result ≡ stronger.is_closed variables.now terms.now cover.now }
{
    let Some(first) = cover.first() else {
        return false;
    };
    are_from(*first, cover) && are_terms_from(*first, end_of(*first, cover), terms, variables)
}

/// The number behind so many from a first one on.
fn end_of(first: i32, values: &[i32]) -> i128
    ensures { result ≡ stronger.end_of first values.now }
{
    i128::from(first) + values.len() as i128
}

/// Whether numbers stand one after the other, from a first one on.
fn are_from(first: i32, values: &[i32]) -> bool
    ensures { result ≡ stronger.are_from first values.now }
{
    for (place, value) in values.iter().enumerate() {
        if !is_behind(*value, first, place) {
            return false;
        }
    }
    true
}

/// Whether a number is so far behind a first one.
fn is_behind(value: i32, first: i32, place: usize) -> bool
    ensures { IsTrue result ↔ (value ≡ (first +ℤ pos place)) }
{
    i128::from(value) == i128::from(first) + place as i128
}

/// Whether terms have numbers from a first one on, and before an end.
fn are_terms_from(first: i32, end: i128, terms: &[Term], variables: &[Variable]) -> bool
    ensures { result ≡ list_all (stronger.is_term_from variables.now first end) terms.now }
{
    terms
        .iter()
        .all(|term| is_term_from(first, end, *term, variables))
}

/// Whether a term has numbers from a first one on, and before an end.
fn is_term_from(first: i32, end: i128, term: Term, variables: &[Variable]) -> bool
    ensures { result ≡ stronger.is_term_from variables.now first end term }
{
    match term {
        Term::Num(value) => is_between(first, end, value, value),
        Term::Var(place) => match variables.get(place as usize) {
            Some(variable) => is_set_from(first, end, variable.set()),
            None => false,
        },
    }
}

/// Whether a set has such numbers, and no others.
fn is_set_from(first: i32, end: i128, set: &Dom) -> bool
    ensures { result ≡ (nat_lt 0 (length set.now) && (int_le first (least set.now)
        && int_lt (greatest set.now) end)) }
{
    !set.is_empty() && is_between(first, end, set.min(), set.max())
}

/// Whether numbers from a low one to a high one are such.
fn is_between(first: i32, end: i128, low: i32, high: i32) -> bool
    ensures { result ≡ (int_le first low && int_lt high end) }
{
    first <= low && i128::from(high) < end
}

/// Whether a sum has two or three terms, a variable that it is being one of them.
fn is_short(terms: &[Term], last: Term) -> bool
    ensures { result ≡ stronger.is_short (left_terms terms.now last) }
{
    match last {
        Term::Num(_) => terms.len() == 2 || terms.len() == 3,
        Term::Var(_) => terms.len() == 1 || terms.len() == 2,
    }
}

/// Whether the propagator of an equation keeps whole domains anyway.
fn is_kept_whole(factors: &[i32], terms: &[Term], last: Term, variables: &[Variable]) -> bool
    ensures { result ≡ stronger.is_kept_whole variables.now (left_factors factors.now last)
        (left_terms terms.now last) }
{
    match last {
        Term::Num(_) => is_whole_of(factors, terms, variables),
        Term::Var(_) => is_whole_beside(last, factors, terms, variables),
    }
}

/// The same, of a sum that is a number.
fn is_whole_of(factors: &[i32], terms: &[Term], variables: &[Variable]) -> bool
    ensures { result ≡ stronger.is_kept_whole variables.now factors.now terms.now }
{
    if factors.len() == 2 && terms.len() == 2 {
        return is_difference(factors[0], terms[0], factors[1], terms[1]);
    }
    if factors.len() == 3 && terms.len() == 3 {
        let first = product_at(factors, terms, 0);
        let second = product_at(factors, terms, 1);
        let third = product_at(factors, terms, 2);
        return is_plane(first, second, third, variables);
    }
    false
}

/// The same, of a sum that is a variable.
fn is_whole_beside(last: Term, factors: &[i32], terms: &[Term], variables: &[Variable]) -> bool
    ensures { result ≡ stronger.is_kept_whole variables.now (negsuc 0 ∷ factors.now)
        (last ∷ terms.now) }
{
    if factors.len() == 1 && terms.len() == 1 {
        return is_difference(-1, last, factors[0], terms[0]);
    }
    if factors.len() == 2 && terms.len() == 2 {
        let first = Product {
            factor: -1,
            term: last,
        };
        let second = product_at(factors, terms, 0);
        let third = product_at(factors, terms, 1);
        return is_plane(first, second, third, variables);
    }
    false
}

/// A factor and its term.
#[derive(Clone, Copy)]
struct Product {
    factor: i32,
    term: Term,
}

/// The product at a place of a sum.
fn product_at(factors: &[i32], terms: &[Term], place: usize) -> Product
    requires factors { place < length factors.now }
    requires terms { place < length terms.now }
    ensures factor { result.factor ≡ get_or factors.now place (pos 0) }
    ensures term { result.term ≡ get_or terms.now place (Num (pos 0)) }
{
    Product {
        factor: factors[place],
        term: terms[place],
    }
}

/// Whether a sum of two terms is a difference of two variables.
fn is_difference(first: i32, one: Term, second: i32, other: Term) -> bool
    ensures { result ≡ (stronger.are_opposite first second
        && (stronger.is_variable one && stronger.is_variable other)) }
{
    are_opposite(first, second) && is_variable(one) && is_variable(other)
}

/// Whether of three terms the difference of two variables is a multiple of the third, where whole domains are kept.
fn is_plane(first: Product, second: Product, third: Product, variables: &[Variable]) -> bool
    ensures { result ≡ stronger.is_kept_whole variables.now
        (first.factor ∷ second.factor ∷ third.factor ∷ [])
        (first.term ∷ second.term ∷ third.term ∷ []) }
{
    is_near_plane(first, second, third, variables)
        || is_near_plane(second, first, third, variables)
        || is_near_plane(third, first, second, variables)
}

/// Whether the difference of two variables is a multiple of a third one, where that one and one of the two are narrow.
fn is_near_plane(across: Product, first: Product, second: Product, variables: &[Variable]) -> bool
    ensures { result ≡ stronger.is_near_plane variables.now across.factor across.term
        first.factor first.term second.factor second.term }
{
    if !is_steep(across.factor) || !are_opposite(first.factor, second.factor) {
        return false;
    }
    is_narrow(variables, across.term)
        && (is_narrow(variables, first.term) && is_variable(second.term)
            || is_variable(first.term) && is_narrow(variables, second.term))
}

/// Whether two factors are 1 and -1, in this order or the other.
fn are_opposite(first: i32, second: i32) -> bool
    ensures { result ≡ stronger.are_opposite first second }
{
    first == 1 && second == -1 || first == -1 && second == 1
}

/// Whether a factor is farther from 0 than 1, and not too far.
fn is_steep(factor: i32) -> bool
    ensures { result ≡ stronger.is_steep factor }
{
    2 <= factor && factor <= 255 || -255 <= factor && factor <= -2
}

fn is_variable(term: Term) -> bool
    ensures { result ≡ stronger.is_variable term }
{
    match term {
        Term::Num(_) => false,
        Term::Var(_) => true,
    }
}

/// Whether a term is a variable that is declared with a set that is at most 64 wide.
fn is_narrow(variables: &[Variable], term: Term) -> bool
    ensures { result ≡ stronger.is_narrow variables.now term }
{
    let Term::Var(place) = term else {
        return false;
    };
    match variables.get(place as usize) {
        Some(variable) => variable.set().window(0).is_some(),
        None => false,
    }
}
