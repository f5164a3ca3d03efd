//! Variables.
ghost use Rattle.std.specs.Prelude.{◌≡◌, ◌↔◌, IfOk, IsTrue};
ghost use Rattle.fz_model.specs.Kept.{IsVariable};

use crate::part::Part;
use fz_dom::Dom;
use fz_spec::kind::Kind;
use std::alloc::AllocError;
use std::marker::Model;

/// A declared variable: its kind, and the set that it is declared with, which for a Boolean is 0..1.
#[derive(Drop)]
pub struct Variable {
    kind: Kind,
    set: Dom,
}

impl Model for Variable {
    ghost use Rattle.fz_spec.specs.Instance as instance;

    ghost Value = { instance.Variable };

    ghost use Rattle.fz_model.specs.Kept.{IsVariable};

    ghost view = { λ v. record { kind = v.kind; set = v.set } };

    ghost invariant = { λ v. IsVariable (record { kind = v.kind; set = v.set }) };
}

impl Variable {
    /// A variable of this kind and set. It takes no memory.
    pub fn new(kind: Kind, set: Dom) -> Variable
        requires { IsVariable (record { kind = kind; set = set }) }
        ensures { result ≡ record { kind = kind; set = set } }
    {
        Variable { kind, set }
    }

    /// What its values are.
    pub fn kind(&self) -> Kind
        ensures kind { result ≡ self.now.kind }
        ensures kept { IsVariable self.now }
    {
        self.kind
    }

    /// The set that it is declared with.
    pub fn set(&self) -> &Dom
        ensures set { result.now ≡ self.now.set }
        ensures kept { IsVariable self.now }
    {
        &self.set
    }
}

impl Part for Variable {
    fn copy(&self) -> Result<Variable, AllocError> {
        let set = self.set.copy()?;
        Ok(Variable {
            kind: self.kind,
            set,
        })
    }

    fn same(&self, other: &Variable) -> bool {
        self.kind == other.kind && self.set.same(&other.set)
    }
}
