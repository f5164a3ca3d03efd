//! The plain form of what is said.
ghost use Rattle.std.specs.Prelude.{◌≡◌, IfOk};
ghost use Rattle.fz_says.specs.Fits.{FitsSum};
ghost use Rattle.fz_says.specs.Said.{said_by};
ghost use Rattle.fz_plain.specs.Plain.{IsPlainest, plain_said};

use crate::equations::plain_equation;
use crate::itself::{plain_comparison, plain_test};
use crate::sums::{plain_sum, plain_sum_if};
use fz_dom::Dom;
use fz_says::Saying;
use fz_says::saying::Operands;
use fz_spec::shape::{Operation, Relation};
use fz_spec::term::Term;
use std::alloc::{AllocError, Global};
use std::sync::Arc;

/// What is said in a plainer form.
#[derive(Drop)]
pub enum Plain {
    /// Two terms are related so.
    Compare(Relation, Term, Term),
    /// A term is in a set.
    Member(Term, Arc<Dom>),
    /// A sum, by its factors and terms, is related so to a number.
    Sum(Relation, Vec<i32>, Vec<Term>, i32),
    /// A sum is related so to a number exactly where the last term is 1.
    SumIf(Relation, Vec<i32>, Vec<Term>, i32, Term),
    /// The last term is what an operation makes of the others.
    Equals(Operation, Vec<Term>, Term),
}

impl Plain {
    /// The same, borrowed.
    pub fn saying(&self) -> Saying<'_>
        ensures { said_by result ≡ plain_said self.now }
    {
        match self {
            Plain::Compare(relation, x, y) => Saying::Compare(*relation, *x, *y),
            Plain::Member(x, set) => Saying::Member(*x, set),
            Plain::Sum(relation, factors, terms, number) => {
                Saying::Sum(*relation, factors, terms, Term::Num(*number))
            }
            Plain::SumIf(relation, factors, terms, number, told) => {
                Saying::SumIf(*relation, factors, terms, *number, *told)
            }
            Plain::Equals(operation, terms, result) => {
                Saying::Equals(*operation, Operands::Listed(terms), *result)
            }
        }
    }
}

/// The plainer form of what is said, exactly where it has one; where the factors of a sum together are beyond 32 bits, there may be none.
///
/// # Errors
/// `AllocError` where there is no memory.
pub fn plain_of(alloc: Global, saying: &Saying) -> Result<Option<Plain>, AllocError>
    requires { FitsSum (said_by saying.now) }
    ensures { IfOk result (λ o. IsPlainest (said_by saying.now) o) }
{
    match saying {
        Saying::Compare(relation, x, y) => Ok(plain_comparison(*relation, *x, *y)),
        Saying::CompareIf(relation, x, y, told) => Ok(plain_test(*relation, *x, *y, *told)),
        Saying::Sum(relation, factors, terms, last) => {
            plain_sum(alloc, *relation, factors, terms, *last)
        }
        Saying::SumIf(relation, factors, terms, number, told) => {
            plain_sum_if(alloc, *relation, factors, terms, *number, *told)
        }
        Saying::Equals(operation, operands, result) => {
            plain_equation(alloc, *operation, operands.as_slice(), *result)
        }
        _ => Ok(None),
    }
}
