//! Constraints.
ghost use Rattle.std.specs.Prelude.{◌≡◌, ◌↔◌, IfOk, IsTrue, map, false};
ghost use Rattle.fz_model.specs.Arguments.{argument_of};

use crate::listed::Listed;
use crate::part::Part;
use fz_dom::Dom;
use fz_spec::builtin::Builtin;
use fz_spec::term::Term;
use std::alloc::{AllocError, Global};
use std::marker::Model;
use std::sync::Arc;

/// An argument of a constraint: a term, a list of numbers, a list of terms, or a set. One set may stand in many constraints, so it is
/// shared, and so is the list of a named array.
#[derive(Drop)]
pub enum Argument {
    One(Term),
    Numbers(Listed<i32>),
    Terms(Listed<Term>),
    Set(Arc<Dom>),
}

impl Argument {
    /// Another argument of the same parts.
    pub fn copy(&self) -> Result<Argument, AllocError>
        ensures { IfOk result (λ a. argument_of a ≡ argument_of self.now) }
    {
        match self {
            Argument::One(term) => Ok(Argument::One(*term)),
            Argument::Numbers(numbers) => Ok(Argument::Numbers(numbers.copy()?)),
            Argument::Terms(terms) => Ok(Argument::Terms(terms.copy()?)),
            Argument::Set(set) => Ok(Argument::Set(set.clone()?)),
        }
    }

    /// Whether the two are of one form and have the same parts.
    pub fn same(&self, other: &Argument) -> bool
        ensures { IsTrue result ↔ (argument_of self.now ≡ argument_of other.now) }
    {
        match (self, other) {
            (Argument::One(this), Argument::One(that)) => this == that,
            (Argument::Numbers(these), Argument::Numbers(those)) => {
                these.as_slice() == those.as_slice()
            }
            (Argument::Terms(these), Argument::Terms(those)) => {
                these.as_slice() == those.as_slice()
            }
            (Argument::Set(this), Argument::Set(that)) => this.same(that),
            _ => false,
        }
    }
}

/// A constraint: its name and its arguments (MiniZinc Handbook, "FlatZinc builtins"), and whether it asks for whole domains.
#[derive(Drop)]
pub struct Constraint {
    name: Builtin,
    whole: bool,
    arguments: Vec<Argument>,
}

impl Model for Constraint {
    ghost use Rattle.std.specs.Prelude.{map};
    ghost use Rattle.fz_spec.specs.Constraints as meaning;
    ghost use Rattle.fz_model.specs.Arguments.{argument_of};

    ghost Value = { meaning.Constraint };

    ghost view = { λ c. record { name = c.name; arguments = map argument_of c.arguments.items; whole = c.whole } };
}

impl Constraint {
    /// A constraint of this name and these arguments, whether the name asks for them or not. It takes no memory.
    pub fn new(name: Builtin, arguments: Vec<Argument>) -> Constraint
        ensures { result ≡ record {
          name = name;
          arguments = map argument_of arguments.items;
          whole = false;
        } }
    {
        Constraint {
            name,
            whole: false,
            arguments,
        }
    }

    /// The same constraint, which asks for whole domains or doesn't (`:: domain`).
    pub fn with_whole(self, whole: bool) -> Constraint
        ensures { result ≡ record self { whole = whole } }
    {
        Constraint {
            name: self.name,
            whole,
            arguments: self.arguments,
        }
    }

    /// Its name.
    pub fn name(&self) -> Builtin
        ensures { result ≡ self.now.name }
    {
        self.name
    }

    /// Whether it asks for whole domains.
    pub fn is_whole(&self) -> bool
        ensures { result ≡ self.now.whole }
    {
        self.whole
    }

    /// Its arguments, in order.
    pub fn arguments(&self) -> &[Argument]
        ensures { map argument_of result.now ≡ self.now.arguments }
    {
        &self.arguments
    }
}

impl Part for Constraint {
    fn copy(&self) -> Result<Constraint, AllocError> {
        let arguments = copy_arguments(*self.arguments.allocator(), &self.arguments)?;
        Ok(Constraint {
            name: self.name,
            whole: self.whole,
            arguments,
        })
    }

    fn same(&self, other: &Constraint) -> bool {
        same_name(self.name, other.name)
            && self.whole == other.whole
            && same_arguments(&self.arguments, &other.arguments)
    }
}

fn copy_arguments(alloc: Global, arguments: &[Argument]) -> Result<Vec<Argument>, AllocError>
    ensures { IfOk result (λ v. map argument_of v.items ≡ map argument_of arguments.now) }
{
    let mut copies = Vec::with_capacity(alloc, arguments.len())?;
    for argument in arguments {
        copies.push(argument.copy()?)?;
    }
    Ok(copies)
}

fn same_arguments(these: &[Argument], those: &[Argument]) -> bool
    ensures { IsTrue result ↔ (map argument_of these.now ≡ map argument_of those.now) }
{
    if these.len() != those.len() {
        return false;
    }
    for (i, this) in these.iter().enumerate() {
        if !this.same(&those[i]) {
            return false;
        }
    }
    true
}

fn same_name(this: Builtin, that: Builtin) -> bool
    ensures { IsTrue result ↔ (this ≡ that) }
{
    this == that
}
