//! The constraints of a model.
ghost use Rattle.std.specs.Prelude.{◌≡◌, ◌↔◌, ◌++◌, ◌+◌, ◌<◌, ◌≤◌, ◌∷◌, [], ℕ, IfOk, OnOk, IsTrue, Some, length, map, slice_get};
ghost use Rattle.fz_model.specs.Groups.{AreEnds, IsPlaceOf, constraint_at, items_in, within};

use crate::constraint::{Argument, Constraint};
use crate::listed::Listed;
use crate::output::same_terms;
use crate::part::{Part, are_same, copies};
use fz_dom::Dom;
use fz_spec::builtin::Builtin;
use fz_spec::term::Term;
use std::alloc::{AllocError, Global};
use std::marker::Model;
use std::mem;
use std::sync::Arc;

/// A constraint of a model: a written one, or that an element of an array, this term, lies in the set of the array's type.
#[derive(Clone, Copy)]
pub enum ConstraintAt<'m> {
    Written(&'m Constraint),
    Element(Term, &'m Arc<Dom>),
}

impl<'m> ConstraintAt<'m> {
    /// Whether it asks for whole domains.
    pub fn is_whole(&self) -> bool
        ensures { result ≡ (constraint_at self.now).whole }
    {
        match self {
            ConstraintAt::Written(constraint) => constraint.is_whole(),
            ConstraintAt::Element(_, _) => false,
        }
    }

    /// Whether the two are equal.
    fn same(&self, other: &ConstraintAt<'_>) -> bool
        ensures { IsTrue result ↔ (constraint_at self.now ≡ constraint_at other.now) }
    {
        match (self, other) {
            (ConstraintAt::Written(this), ConstraintAt::Written(that)) => this.same(that),
            (ConstraintAt::Written(this), ConstraintAt::Element(term, set)) => {
                is_within(this, *term, set)
            }
            (ConstraintAt::Element(term, set), ConstraintAt::Written(that)) => {
                is_within(that, *term, set)
            }
            (ConstraintAt::Element(term, set), ConstraintAt::Element(other, others)) => {
                term == other && set.same(others)
            }
        }
    }
}

/// Whether a constraint says that this term lies in this set.
fn is_within(constraint: &Constraint, term: Term, set: &Dom) -> bool
    ensures { IsTrue result ↔ (constraint.now ≡ within set.now term) }
{
    match constraint.arguments() {
        [Argument::One(first), Argument::Set(second)] => {
            constraint.name() == Builtin::SetIn
                && !constraint.is_whole()
                && *first == term
                && second.same(set)
        }
        _ => false,
    }
}

/// Written constraints, and after them those of the elements of one array, which share its list and the set of its type.
#[derive(Drop)]
pub struct Group {
    written: Vec<Constraint>,
    terms: Listed<Term>,
    set: Arc<Dom>,
    /// How many constraints there are up to the last of this group.
    end: usize,
}

impl Model for Group {
    ghost use Rattle.fz_model.specs.Groups as groups;

    ghost Value = { groups.Group };

    ghost view = { λ g. record {
      written = g.written.items;
      terms = g.terms;
      set = g.set.value;
      end = g.end;
    } };
}

impl Group {
    fn end(&self) -> usize
        ensures { result ≡ self.now.end }
    {
        self.end
    }

    /// The constraint that stands that many places before the end, 1 for the last.
    fn before_end(&self, places: usize) -> ConstraintAt<'_>
        requires some { 0 < places }
        requires few { places ≤ length (items_in self.now) }
        ensures { (i : ℕ) → i + places ≡ length (items_in self.now)
            → slice_get (items_in self.now) i ≡ Some (constraint_at result) }
    {
        let (written, terms) = (self.written.as_slice(), self.terms.as_slice());
        if places <= terms.len() {
            ConstraintAt::Element(terms[terms.len() - places], &self.set)
        } else {
            let places = places - terms.len();
            ConstraintAt::Written(&written[written.len() - places])
        }
    }
}

impl Part for Group {
    fn copy(&self) -> Result<Group, AllocError> {
        Ok(Group {
            written: copies(*self.written.allocator(), &self.written)?,
            terms: self.terms.copy()?,
            set: self.set.clone()?,
            end: self.end,
        })
    }

    fn same(&self, other: &Group) -> bool {
        are_same(&self.written, &other.written)
            && same_terms(self.terms.as_slice(), other.terms.as_slice())
            && self.set.same(&other.set)
            && self.end == other.end
    }
}

/// Constraints in order. Those of the elements of an array take the memory of one.
#[derive(Drop)]
pub struct Constraints {
    groups: Vec<Group>,
    /// How many constraints the groups have.
    grouped: usize,
    /// The written constraints after the groups.
    written: Vec<Constraint>,
}

impl Model for Constraints {
    ghost use Rattle.std.specs.Prelude.{List, ◌++◌, flat_map, length};
    ghost use Rattle.fz_spec.specs.Constraints as meaning;
    ghost use Rattle.fz_model.specs.Groups.{IsNumbered, items_in};

    ghost Value = { List meaning.Constraint };

    ghost view = { λ c. flat_map items_in c.groups.items ++ c.written.items };

    ghost invariant = { λ c. IsNumbered c.groups.items c.grouped (length c.written.items) };
}

impl Constraints {
    /// No constraints. It takes no memory.
    pub fn new(alloc: Global) -> Constraints
        ensures { result ≡ [] }
    {
        Constraints {
            groups: Vec::new(alloc),
            grouped: 0,
            written: Vec::new(alloc),
        }
    }

    /// How many there are.
    pub fn len(&self) -> usize
        ensures { result ≡ length self.now }
    {
        self.grouped + self.written.len()
    }

    /// The constraint of a number, from 0 on. It is found by halves.
    pub fn at(&self, number: usize) -> ConstraintAt<'_>
        requires { number < length self.now }
        ensures { slice_get self.now number ≡ Some (constraint_at result) }
    {
        let (groups, written) = (self.groups.as_slice(), self.written.as_slice());
        if number >= self.grouped {
            return ConstraintAt::Written(&written[number - self.grouped]);
        }
        let group = &groups[place_of(groups, self.grouped, number)];
        group.before_end(group.end() - number)
    }

    /// Adds a constraint.
    ///
    /// # Errors
    /// `AllocError` where there is no memory.
    pub fn push(&mut self, constraint: Constraint) -> Result<(), AllocError>
        ensures { OnOk result (self.new ≡ self.old ++ constraint ∷ []) }
    {
        if self.len() == usize::MAX {
            return Err(AllocError);
        }
        self.written.push(constraint)?;
        Ok(())
    }

    /// Adds for each term the constraint that it lies in a set.
    ///
    /// # Errors
    /// `AllocError` where there is no memory.
    pub fn push_within(&mut self, terms: Listed<Term>, set: Arc<Dom>) -> Result<(), AllocError>
        ensures { OnOk result (self.new ≡ self.old ++ map (within set.value) terms) }
    {
        let Some(end) = self.len().checked_add(terms.as_slice().len()) else {
            return Err(AllocError);
        };
        let written = Vec::new(*self.written.allocator());
        let written = mem::replace(&mut self.written, written);
        self.groups.push(Group {
            written,
            terms,
            set,
            end,
        })?;
        self.grouped = end;
        Ok(())
    }
}

impl Part for Constraints {
    fn copy(&self) -> Result<Constraints, AllocError> {
        let alloc = *self.written.allocator();
        Ok(Constraints {
            groups: copies(alloc, &self.groups)?,
            grouped: self.grouped,
            written: copies(alloc, &self.written)?,
        })
    }

    fn same(&self, other: &Constraints) -> bool {
        (are_same(&self.groups, &other.groups) && are_same(&self.written, &other.written))
            || are_same_by_number(self, other)
    }
}

/// The place of the group that has the constraint of this number, of groups with that many.
fn place_of(groups: &[Group], all: usize, number: usize) -> usize
    requires ends { AreEnds 0 groups.now all }
    requires inside { number < all }
    ensures { IsPlaceOf groups.now number result }
{
    let _ = all;
    groups.partition_point(|group| group.end() <= number)
}

/// Whether the two have the same constraints, whatever their groups are.
fn are_same_by_number(these: &Constraints, those: &Constraints) -> bool
    ensures { IsTrue result ↔ (these.now ≡ those.now) }
{
    if these.len() != those.len() {
        return false;
    }
    for number in 0..these.len() {
        if !these.at(number).same(&those.at(number)) {
            return false;
        }
    }
    true
}
