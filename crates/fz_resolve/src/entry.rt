//! What names stand for.
ghost use Rattle.std.specs.Prelude.{◌≡◌};
ghost use Rattle.fz_language.specs.Entries as entries;
ghost use Rattle.fz_language.specs.Entries.{entry_term};
ghost use Rattle.fz_resolve.specs.Meant.{meant};

use crate::arrays::{NumberList, TermList};
use fz_dom::Dom;
use fz_model::Term;
use fz_spec::asked::Element;
use fz_spec::kind::Kind;
use std::sync::Arc;

/// A variable by its number, a value, a set, an array of numbers, of variables and numbers, or of sets. Most entries are variables:
/// what is larger stands in a box, or is shared.
#[derive(Drop)]
pub enum Entry {
    Variable { kind: Kind, number: u32 },
    Value { kind: Kind, value: i32 },
    Set(Arc<Dom>),
    Numbers(Box<NumberList>),
    Terms(Box<TermList>),
    Sets,
}

impl Entry {
    /// The term that it is, if it is what is asked.
    pub fn term(&self, asked: Element) -> Option<Term>
        ensures { result ≡ entry_term asked (meant self.now) }
    {
        match self {
            Entry::Value { kind, value } => of_kind(asked.kind, *kind, Term::Num(*value)),
            Entry::Variable { kind, number } if asked.may_vary => {
                of_kind(asked.kind, *kind, Term::Var(*number))
            }
            _ => None,
        }
    }
}

/// The term, if the kind is the one that is asked.
pub fn of_kind(wanted: Kind, kind: Kind, term: Term) -> Option<Term>
    ensures { result ≡ entries.of_kind wanted kind term }
{
    match (wanted, kind) {
        (Kind::Bool, Kind::Bool) | (Kind::Int, Kind::Int) => Some(term),
        _ => None,
    }
}
