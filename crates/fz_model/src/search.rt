//! Parts of the search.
ghost use Rattle.std.specs.Prelude.{◌≡◌, ◌↔◌, IfOk, IsTrue};

use crate::listed::Listed;
use crate::part::Part;
use fz_spec::search::{Pick, Value};
use std::alloc::AllocError;
use std::marker::Model;

/// A part of the search: the numbers of its variables, which of them is picked, and how its values are parted.
#[derive(Drop)]
pub struct SearchPart {
    variables: Listed<u32>,
    pick: Pick,
    value: Value,
}

impl Model for SearchPart {
    ghost use Rattle.fz_spec.specs.Instance as instance;

    ghost Value = { instance.SearchPart };

    ghost view = { λ p. record { variables = p.variables; pick = p.pick; value = p.value } };
}

impl SearchPart {
    /// A part over these variables. It takes no memory.
    pub fn new(variables: Listed<u32>, pick: Pick, value: Value) -> SearchPart
        ensures { result ≡ record { variables = variables; pick = pick; value = value } }
    {
        SearchPart {
            variables,
            pick,
            value,
        }
    }

    /// The numbers of its variables, in order.
    pub fn variables(&self) -> &[u32]
        ensures { result.now ≡ self.now.variables }
    {
        self.variables.as_slice()
    }

    /// Which variable is picked.
    pub fn pick(&self) -> Pick
        ensures { result ≡ self.now.pick }
    {
        self.pick
    }

    /// How the values of the picked variable are parted.
    pub fn value(&self) -> Value
        ensures { result ≡ self.now.value }
    {
        self.value
    }
}

impl Part for SearchPart {
    fn copy(&self) -> Result<SearchPart, AllocError> {
        Ok(SearchPart {
            variables: self.variables.copy()?,
            pick: self.pick,
            value: self.value,
        })
    }

    fn same(&self, other: &SearchPart) -> bool {
        self.variables.as_slice() == other.variables.as_slice()
            && self.pick == other.pick
            && self.value == other.value
    }
}
