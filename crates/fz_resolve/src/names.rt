//! The names that are declared.
ghost use Rattle.std.specs.Prelude.{◌≡◌, OnOk, None, option_copied, option_map, map, flat_map, slice_get};
ghost use Rattle.fz_language.specs.Entries.{nothing_declared, with_entry};
ghost use Rattle.fz_language.specs.Rules.{unknown_in, unknown_of};
ghost use Rattle.fz_syntax.specs.Trees.{basic_of, elements_of, expression_of};
ghost use Rattle.fz_resolve.specs.Meant.{environment_of, meant, tail_from};

use crate::entry::Entry;
use fz_syntax::{Basic, Elements, Expression, Name};
use std::alloc::{AllocError, Global};
use std::collections::BTreeMap;

/// A name as it is looked up: the number that its last eight bytes make, by which most names are told apart, and its bytes.
type Key<'a> = (u64, &'a [u8]);

/// A name as it is looked up.
fn key_of(bytes: &[u8]) -> Key<'_>
    ensures tail { result.0 ≡ tail_from 0 bytes.now }
    ensures bytes { result.1.now ≡ bytes.now }
{
    let mut tail: u64 = 0;
    for byte in bytes {
        tail = tail.wrapping_mul(256).wrapping_add(u64::from(*byte));
    }
    (tail, bytes)
}

/// An entry for each name, found by its bytes in time that no input makes longer than the logarithm of their number.
#[derive(Drop)]
pub struct Names<'a> {
    known: BTreeMap<Key<'a>, Entry>,
}

impl<'a> Names<'a> {
    /// No name.
    pub fn new(alloc: Global) -> Names<'a>
        ensures { environment_of result ≡ nothing_declared }
    {
        Names {
            known: BTreeMap::new(alloc),
        }
    }

    /// What a name stands for.
    pub fn entry(&self, name: Name<'a>) -> Option<&Entry>
        ensures { option_map meant (option_copied result)
            ≡ environment_of self.now name.entry.bytes.now }
    {
        self.known.get(&key_of(name.bytes))
    }

    /// Gives a name an entry.
    pub fn declare(&mut self, name: Name<'a>, entry: Entry) -> Result<(), AllocError>
        ensures { OnOk result (environment_of self.new
            ≡ with_entry name.entry.bytes.now (meant entry) (environment_of self.old)) }
    {
        self.known.insert(key_of(name.bytes), entry)?;
        Ok(())
    }

    /// The place of the name that an expression is, if it isn't declared.
    pub fn unknown(&self, basic: &Basic<'a>) -> Option<u32>
        ensures { result ≡ slice_get (unknown_in (environment_of self.now) (basic_of basic.now)) 0 }
    {
        match basic {
            Basic::Named { at, bytes } => match self.entry(Name {
                bytes: *bytes,
                at: *at,
            }) {
                Some(_) => None,
                None => Some(*at),
            },
            Basic::Truth { .. } | Basic::Numeral(_) | Basic::Small { .. } | Basic::Literal(_) =>
                None,
        }
    }

    /// The place of the first name that isn't declared among expressions.
    fn unknown_basic(&self, basics: &[Basic<'a>]) -> Option<u32>
        ensures { result ≡ slice_get
            (flat_map (unknown_in (environment_of self.now)) (map basic_of basics.now)) 0 }
    {
        for basic in basics {
            if let Some(at) = self.unknown(basic) {
                return Some(at);
            }
        }
        None
    }

    /// The place of the first name that isn't declared among the elements of a list.
    pub fn unknown_element(&self, elements: &Elements<'a>) -> Option<u32>
        ensures { result ≡ slice_get
            (flat_map (unknown_in (environment_of self.now)) (elements_of elements.now)) 0 }
    {
        match elements {
            Elements::Integers(_) => None,
            Elements::Basics(basics) => self.unknown_basic(basics),
        }
    }

    /// The place of the first name that isn't declared in an argument of a constraint.
    fn unknown_of(&self, argument: &Expression<'a>) -> Option<u32>
        ensures { result
            ≡ slice_get (unknown_of (environment_of self.now) (expression_of argument.now)) 0 }
    {
        match argument {
            Expression::Scalar(basic) => self.unknown(basic),
            Expression::Integers { .. } => None,
            Expression::Basics { basics, .. } => self.unknown_basic(basics),
        }
    }

    /// The place of the first name that isn't declared in the arguments of a constraint.
    pub fn unknown_argument(&self, arguments: &[Expression<'a>]) -> Option<u32>
        ensures { result ≡ slice_get
            (flat_map (unknown_of (environment_of self.now)) (map expression_of arguments.now)) 0 }
    {
        for argument in arguments {
            if let Some(at) = self.unknown_of(argument) {
                return Some(at);
            }
        }
        None
    }
}
