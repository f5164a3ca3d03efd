//! Assignments, and the values that they give.
ghost use Rattle.std.specs.Prelude.{◌≡◌, ◌↔◌, IfOk, IsTrue};
ghost use Rattle.fz_spec.specs.Constraints.{term_value};
ghost use Rattle.fz_model.specs.Kept.{AreNumbers};

use fz_spec::term::Term;
use std::alloc::{AllocError, Global};
use std::marker::Model;

/// Numbers within the limits, meant as one for each variable of a model, in the order of declaration.
#[derive(Drop)]
pub struct Assignment {
    numbers: Vec<i32>,
}

impl Model for Assignment {
    ghost use Rattle.std.specs.Prelude.{ℤ, List};
    ghost use Rattle.fz_model.specs.Kept.{AreNumbers};

    ghost Value = { List ℤ };

    ghost view = { λ a. a.numbers.items };

    ghost invariant = { λ a. AreNumbers a.numbers.items };
}

impl Assignment {
    /// The assignment of these numbers.
    pub fn new(alloc: Global, values: &[i32]) -> Result<Assignment, AllocError>
        requires { AreNumbers values.now }
        ensures { IfOk result (λ a. a ≡ values.now) }
    {
        let numbers = Vec::from_slice(alloc, values)?;
        Ok(Assignment { numbers })
    }

    /// The numbers, in order.
    pub fn values(&self) -> &[i32]
        ensures values { result.now ≡ self.now }
        ensures kept { AreNumbers self.now }
    {
        &self.numbers
    }

    /// Another assignment of the same numbers.
    pub fn copy(&self) -> Result<Assignment, AllocError>
        ensures { IfOk result (λ a. a ≡ self.now) }
    {
        Assignment::new(*self.numbers.allocator(), &self.numbers)
    }

    /// Whether the two have the same numbers.
    pub fn same(&self, other: &Assignment) -> bool
        ensures { IsTrue result ↔ (self.now ≡ other.now) }
    {
        self.numbers.as_slice() == other.numbers.as_slice()
    }
}

/// The value of a term, 0 for a variable that has none among these.
pub fn value_of(term: Term, values: &[i32]) -> i32
    ensures { result ≡ term_value values.now term }
{
    match term {
        Term::Num(number) => number,
        Term::Var(variable) => values.get(variable as usize).copied().unwrap_or(0),
    }
}
