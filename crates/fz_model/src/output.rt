//! Output items.
ghost use Rattle.std.specs.Prelude.{◌≡◌, ◌↔◌, IfOk, IsTrue, ◌∷◌, [], true, false};

use crate::listed::Listed;
use crate::part::Part;
use crate::text::Text;
use fz_spec::kind::Kind;
use fz_spec::term::Term;
use std::alloc::AllocError;
use std::marker::Model;

/// An output item: a name, what its values are, whether it is an array, the index ranges of an array, and its terms. A solution
/// prints `name = value;`, and of an array `name = array1d(1..2, [value, value]);`.
#[derive(Drop)]
pub struct Output {
    name: Text,
    kind: Kind,
    array: bool,
    shape: Vec<(i32, i32)>,
    terms: Listed<Term>,
}

impl Model for Output {
    ghost use Rattle.fz_spec.specs.Instance as instance;

    ghost Value = { instance.Output };

    ghost view = { λ o. record {
      name = o.name;
      kind = o.kind;
      array = o.array;
      shape = o.shape.items;
      terms = o.terms;
    } };
}

impl Output {
    /// An output item: the elements of an array and its index ranges, or the one term of what is no array. It takes no memory.
    pub fn new(
        name: Text,
        kind: Kind,
        array: bool,
        shape: Vec<(i32, i32)>,
        terms: Listed<Term>,
    ) -> Output
        ensures { result ≡ record {
          name = name;
          kind = kind;
          array = array;
          shape = shape.items;
          terms = terms;
        } }
    {
        Output {
            name,
            kind,
            array,
            shape,
            terms,
        }
    }

    /// The name that is printed.
    pub fn name(&self) -> &Text
        ensures { result.now ≡ self.now.name }
    {
        &self.name
    }

    /// What its values are.
    pub fn kind(&self) -> Kind
        ensures { result ≡ self.now.kind }
    {
        self.kind
    }

    /// Whether it is an array.
    pub fn is_array(&self) -> bool
        ensures { result ≡ self.now.array }
    {
        self.array
    }

    /// The index ranges of an array, each a first and a last index.
    pub fn shape(&self) -> &[(i32, i32)]
        ensures { result.now ≡ self.now.shape }
    {
        &self.shape
    }

    /// Its terms, in order.
    pub fn terms(&self) -> &[Term]
        ensures { result.now ≡ self.now.terms }
    {
        self.terms.as_slice()
    }
}

impl Part for Output {
    fn copy(&self) -> Result<Output, AllocError> {
        let name = self.name.copy()?;
        let shape = Vec::from_slice(*self.shape.allocator(), &self.shape)?;
        Ok(Output {
            name,
            kind: self.kind,
            array: self.array,
            shape,
            terms: self.terms.copy()?,
        })
    }

    fn same(&self, other: &Output) -> bool {
        self.name.same(&other.name)
            && self.kind == other.kind
            && self.array == other.array
            && same_shape(&self.shape, &other.shape)
            && same_terms(self.terms.as_slice(), other.terms.as_slice())
    }
}

fn same_shape(this: &[(i32, i32)], that: &[(i32, i32)]) -> bool
    ensures { IsTrue result ↔ (this.now ≡ that.now) }
{
    this == that
}

pub(crate) fn same_terms(these: &[Term], those: &[Term]) -> bool
    ensures { IsTrue result ↔ (these.now ≡ those.now) }
{
    these == those
}
