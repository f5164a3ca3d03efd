//! What a constraint says.
ghost use Rattle.std.specs.Prelude.{◌≡◌, ◌∷◌, [], map};
ghost use Rattle.fz_model.specs.Arguments.{argument_of};
ghost use Rattle.fz_spec.specs.declared.shape.Shape.TheVariants as shapes;
ghost use Rattle.fz_spec.specs.Constraints.{One, Numbers, Terms};
ghost use Rattle.fz_spec.specs.Signatures.{shape_of};
ghost use Rattle.fz_strength.specs.Sayings as said;
ghost use Rattle.fz_says.specs.Said.{operands_of, said_by};

use fz_dom::Dom;
use fz_model::Listed;
use fz_model::constraint::{Argument, Constraint};
use fz_spec::shape::{Operation, Relation, Shape};
use fz_spec::term::Term;
use std::sync::Arc;

/// One term, two, or a list.
#[derive(Clone, Copy)]
pub enum Operands<'m> {
    One([Term; 1]),
    Two([Term; 2]),
    Listed(&'m [Term]),
}

impl<'m> Operands<'m> {
    /// All of them, in order.
    pub fn as_slice(&self) -> &[Term]
        ensures { result.now ≡ operands_of self.now }
    {
        match self {
            Operands::One(terms) => terms,
            Operands::Two(terms) => terms,
            Operands::Listed(terms) => terms,
        }
    }
}

/// An automaton: how many states and symbols it has, the next state for each of both, where it starts, and where it accepts.
#[derive(Clone, Copy)]
pub struct Automaton<'m> {
    pub states: i32,
    pub symbols: i32,
    pub next: &'m Listed<i32>,
    pub start: i32,
    pub accepting: &'m Arc<Dom>,
}

/// What a constraint says, of the arguments of a model.
#[derive(Clone, Copy)]
pub enum Saying<'m> {
    /// Two terms are related so.
    Compare(Relation, Term, Term),
    /// Two terms are related so exactly where the third is 1.
    CompareIf(Relation, Term, Term, Term),
    /// A term is in a set.
    Member(Term, &'m Arc<Dom>),
    /// A term is in a set exactly where the other is 1.
    MemberIf(Term, &'m Arc<Dom>, Term),
    /// A sum, by its factors and terms, is related so to a term.
    Sum(Relation, &'m [i32], &'m [Term], Term),
    /// A sum is related so to a number exactly where the last term is 1.
    SumIf(Relation, &'m [i32], &'m [Term], i32, Term),
    /// The last term is 1 exactly where one of the first is 1, or one of the second 0.
    Clause(&'m [Term], &'m [Term], Term),
    /// The last term is 1 exactly where one of the first is.
    AnyOf(Operands<'m>, Term),
    /// The last term is 1 exactly where all of the first are.
    AllOf(Operands<'m>, Term),
    /// The last term is what an operation makes of the others.
    Equals(Operation, Operands<'m>, Term),
    /// An odd number of terms are 1.
    Odd(&'m [Term]),
    /// The number at an index is the last term.
    Select(&'m Listed<i32>, Term, Term),
    /// The term at an index is the last one.
    SelectTerm(&'m Listed<Term>, Term, Term),
    /// The terms are a row of a table.
    Row(&'m [Term], &'m Listed<i32>),
    /// An automaton accepts the terms.
    Regular(Automaton<'m>, &'m [Term]),
    /// No two terms are equal.
    Differ(&'m [Term]),
    /// The same, said to the propagator that looks at the bounds of all.
    DifferByBounds(&'m [Term]),
    /// A sum is a term: the same, said to the propagator that looks at all numbers of two or three terms.
    SumByNumbers(&'m [i32], &'m [Term], Term),
    /// Tasks, by their starts, durations and usages, never use more than a bound.
    Share(&'m [Term], &'m [Term], &'m [Term], Term),
    /// Each of two lists of terms is the inverse of the other.
    Inverse(&'m [Term], &'m [Term]),
    /// The first terms have each value of a cover as often as the last terms tell.
    Count(&'m [Term], &'m [i32], &'m [Term]),
    /// It is true: this is told of a constraint that says none of the others.
    Other(&'m Constraint),
}

impl<'m> Saying<'m> {
    /// What a constraint says, by the shape in its row.
    pub fn of(constraint: &'m Constraint) -> Saying<'m>
        ensures { said_by result ≡ said.saying_of constraint.now }
    {
        match constraint.name().shape() {
            Shape::Rel(relation) => related(relation, constraint),
            Shape::Dom => member(constraint),
            Shape::Linear(relation) => linear(relation, constraint),
            Shape::Clause => clause(constraint),
            Shape::Or => any_of(constraint),
            Shape::And => all_of(constraint),
            Shape::Xor => odd(constraint),
            Shape::Arithmetic(operation) => equation(operation, constraint),
            Shape::Element => element(constraint),
            Shape::Extensional => row(constraint),
            Shape::Distinct => distinct(constraint),
            Shape::Cumulative => cumulative(constraint),
            Shape::Regular => regular(constraint),
            Shape::Counts => counts(constraint),
            Shape::Inverse => inverse(constraint),
        }
    }
}

/// Two terms that are related, or two and a Boolean that says whether they are.
fn related<'m>(relation: Relation, constraint: &'m Constraint) -> Saying<'m>
    requires { shape_of constraint.now.name ≡ shapes.Rel relation }
    ensures { said_by result ≡ said.said (shapes.Rel relation) constraint.now.arguments }
{
    match constraint.arguments() {
        [Argument::One(x), Argument::One(y)] => Saying::Compare(relation, *x, *y),
        [Argument::One(x), Argument::One(y), Argument::One(r)] => Saying::CompareIf(
            relation, *x, *y, *r,
        ),
        _ => Saying::Other(constraint),
    }
}

/// A term in a set, or one and a Boolean that says whether it is.
fn member<'m>(constraint: &'m Constraint) -> Saying<'m>
    requires { shape_of constraint.now.name ≡ shapes.Dom }
    ensures { said_by result ≡ said.said shapes.Dom constraint.now.arguments }
{
    match constraint.arguments() {
        [Argument::One(x), Argument::Set(set)] => Saying::Member(*x, set),
        [Argument::One(x), Argument::Set(set), Argument::One(r)] => Saying::MemberIf(*x, set, *r),
        _ => Saying::Other(constraint),
    }
}

/// A sum that is related to a term, or to a number, and a Boolean that says whether it is.
fn linear<'m>(relation: Relation, constraint: &'m Constraint) -> Saying<'m>
    requires { shape_of constraint.now.name ≡ shapes.Linear relation }
    ensures { said_by result ≡ said.said (shapes.Linear relation) constraint.now.arguments }
{
    match constraint.arguments() {
        [
            Argument::Numbers(factors),
            Argument::Terms(terms),
            rest @ ..,
        ] => linear_to(
            relation,
            constraint,
            factors.as_slice(),
            terms.as_slice(),
            rest,
        ),
        _ => Saying::Other(constraint),
    }
}

/// The same of a sum with what it is related to.
fn linear_to<'m>(
    relation: Relation,
    constraint: &'m Constraint,
    factors: &'m [i32],
    terms: &'m [Term],
    rest: &'m [Argument],
) -> Saying<'m>
    requires shape { shape_of constraint.now.name ≡ shapes.Linear relation }
    requires arguments { constraint.now.arguments ≡ Numbers factors.now ∷ Terms terms.now
        ∷ map argument_of rest.now }
    ensures { said_by result ≡ said.said (shapes.Linear relation) constraint.now.arguments }
{
    match rest {
        [Argument::One(last)] => Saying::Sum(relation, factors, terms, *last),
        [Argument::One(last), Argument::One(r)] => linear_if(
            relation, constraint, factors, terms, *last, *r,
        ),
        _ => Saying::Other(constraint),
    }
}

/// A sum that is related to a number, and a Boolean that says whether it is; of a sum that is related to a variable nothing.
fn linear_if<'m>(
    relation: Relation,
    constraint: &'m Constraint,
    factors: &'m [i32],
    terms: &'m [Term],
    last: Term,
    r: Term,
) -> Saying<'m>
    requires shape { shape_of constraint.now.name ≡ shapes.Linear relation }
    requires arguments { constraint.now.arguments ≡ Numbers factors.now ∷ Terms terms.now
        ∷ One last ∷ One r ∷ [] }
    ensures { said_by result ≡ said.said (shapes.Linear relation) constraint.now.arguments }
{
    match last {
        Term::Num(number) => Saying::SumIf(relation, factors, terms, number, r),
        Term::Var(_) => Saying::Other(constraint),
    }
}

/// Booleans of which one is 1, or one of others 0; or these and a Boolean that says whether it is so.
fn clause<'m>(constraint: &'m Constraint) -> Saying<'m>
    requires { shape_of constraint.now.name ≡ shapes.Clause }
    ensures { said_by result ≡ said.said shapes.Clause constraint.now.arguments }
{
    match constraint.arguments() {
        [Argument::Terms(positives), Argument::Terms(negatives)] => Saying::Clause(
            positives.as_slice(),
            negatives.as_slice(),
            Term::Num(1),
        ),
        [
            Argument::Terms(positives),
            Argument::Terms(negatives),
            Argument::One(r),
        ] => Saying::Clause(positives.as_slice(), negatives.as_slice(), *r),
        _ => Saying::Other(constraint),
    }
}

/// A Boolean that says whether one of some is 1.
fn any_of<'m>(constraint: &'m Constraint) -> Saying<'m>
    requires { shape_of constraint.now.name ≡ shapes.Or }
    ensures { said_by result ≡ said.said shapes.Or constraint.now.arguments }
{
    match constraint.arguments() {
        [Argument::Terms(terms), Argument::One(r)] => Saying::AnyOf(
            Operands::Listed(terms.as_slice()),
            *r,
        ),
        [Argument::One(x), Argument::One(y), Argument::One(r)] => Saying::AnyOf(
            Operands::Two([*x, *y]),
            *r,
        ),
        _ => Saying::Other(constraint),
    }
}

/// A Boolean that says whether all of some are 1.
fn all_of<'m>(constraint: &'m Constraint) -> Saying<'m>
    requires { shape_of constraint.now.name ≡ shapes.And }
    ensures { said_by result ≡ said.said shapes.And constraint.now.arguments }
{
    match constraint.arguments() {
        [Argument::Terms(terms), Argument::One(r)] => Saying::AllOf(
            Operands::Listed(terms.as_slice()),
            *r,
        ),
        [Argument::One(x), Argument::One(y), Argument::One(r)] => Saying::AllOf(
            Operands::Two([*x, *y]),
            *r,
        ),
        _ => Saying::Other(constraint),
    }
}

/// Booleans an odd number of which are 1.
fn odd<'m>(constraint: &'m Constraint) -> Saying<'m>
    requires { shape_of constraint.now.name ≡ shapes.Xor }
    ensures { said_by result ≡ said.said shapes.Xor constraint.now.arguments }
{
    match constraint.arguments() {
        [Argument::Terms(terms)] => Saying::Odd(terms.as_slice()),
        _ => Saying::Other(constraint),
    }
}

/// What an operation makes of one term, of two, or of a list.
fn equation<'m>(operation: Operation, constraint: &'m Constraint) -> Saying<'m>
    requires { shape_of constraint.now.name ≡ shapes.Arithmetic operation }
    ensures { said_by result ≡ said.said (shapes.Arithmetic operation) constraint.now.arguments }
{
    match constraint.arguments() {
        [Argument::One(x), Argument::One(z)] => Saying::Equals(operation, Operands::One([*x]), *z),
        [Argument::One(x), Argument::One(y), Argument::One(z)] => Saying::Equals(
            operation,
            Operands::Two([*x, *y]),
            *z,
        ),
        [Argument::One(z), Argument::Terms(xs)] => Saying::Equals(
            operation,
            Operands::Listed(xs.as_slice()),
            *z,
        ),
        _ => Saying::Other(constraint),
    }
}

/// The number or the term that stands at an index.
fn element<'m>(constraint: &'m Constraint) -> Saying<'m>
    requires { shape_of constraint.now.name ≡ shapes.Element }
    ensures { said_by result ≡ said.said shapes.Element constraint.now.arguments }
{
    match constraint.arguments() {
        [Argument::One(k), Argument::Numbers(xs), Argument::One(c)] => Saying::Select(xs, *k, *c),
        [Argument::One(k), Argument::Terms(xs), Argument::One(c)] => Saying::SelectTerm(xs, *k, *c),
        _ => Saying::Other(constraint),
    }
}

/// Terms that are a row of a table.
fn row<'m>(constraint: &'m Constraint) -> Saying<'m>
    requires { shape_of constraint.now.name ≡ shapes.Extensional }
    ensures { said_by result ≡ said.said shapes.Extensional constraint.now.arguments }
{
    match constraint.arguments() {
        [Argument::Terms(xs), Argument::Numbers(table)] => Saying::Row(xs.as_slice(), table),
        _ => Saying::Other(constraint),
    }
}

/// Terms that an automaton accepts.
fn regular<'m>(constraint: &'m Constraint) -> Saying<'m>
    requires { shape_of constraint.now.name ≡ shapes.Regular }
    ensures { said_by result ≡ said.said shapes.Regular constraint.now.arguments }
{
    match constraint.arguments() {
        [
            Argument::Terms(xs),
            Argument::One(Term::Num(states)),
            Argument::One(Term::Num(symbols)),
            Argument::Numbers(next),
            Argument::One(Term::Num(start)),
            Argument::Set(accepting),
        ] => {
            let automaton = Automaton {
                states: *states,
                symbols: *symbols,
                next,
                start: *start,
                accepting,
            };
            Saying::Regular(automaton, xs.as_slice())
        }
        _ => Saying::Other(constraint),
    }
}

/// Terms no two of which are equal.
fn distinct<'m>(constraint: &'m Constraint) -> Saying<'m>
    requires { shape_of constraint.now.name ≡ shapes.Distinct }
    ensures { said_by result ≡ said.said shapes.Distinct constraint.now.arguments }
{
    match constraint.arguments() {
        [Argument::Terms(xs)] => Saying::Differ(xs.as_slice()),
        _ => Saying::Other(constraint),
    }
}

/// Tasks that share a resource.
fn cumulative<'m>(constraint: &'m Constraint) -> Saying<'m>
    requires { shape_of constraint.now.name ≡ shapes.Cumulative }
    ensures { said_by result ≡ said.said shapes.Cumulative constraint.now.arguments }
{
    match constraint.arguments() {
        [
            Argument::Terms(starts),
            Argument::Terms(durations),
            Argument::Terms(usages),
            Argument::One(bound),
        ] => Saying::Share(
            starts.as_slice(),
            durations.as_slice(),
            usages.as_slice(),
            *bound,
        ),
        _ => Saying::Other(constraint),
    }
}

/// Two lists of terms, each the inverse of the other.
fn inverse<'m>(constraint: &'m Constraint) -> Saying<'m>
    requires { shape_of constraint.now.name ≡ shapes.Inverse }
    ensures { said_by result ≡ said.said shapes.Inverse constraint.now.arguments }
{
    match constraint.arguments() {
        [Argument::Terms(firsts), Argument::Terms(seconds)] => Saying::Inverse(
            firsts.as_slice(),
            seconds.as_slice(),
        ),
        _ => Saying::Other(constraint),
    }
}

/// Terms that have the values of a cover so many times.
fn counts<'m>(constraint: &'m Constraint) -> Saying<'m>
    requires { shape_of constraint.now.name ≡ shapes.Counts }
    ensures { said_by result ≡ said.said shapes.Counts constraint.now.arguments }
{
    match constraint.arguments() {
        [
            Argument::Terms(terms),
            Argument::Numbers(cover),
            Argument::Terms(counts),
        ] => Saying::Count(terms.as_slice(), cover.as_slice(), counts.as_slice()),
        _ => Saying::Other(constraint),
    }
}
