//! The propagator of terms that take the numbers of a row.
ghost use Rattle.std.specs.Prelude.{◌≡◌, IfOk};
ghost use Rattle.fz_strength.specs.Sayings.{Row};

use crate::keep::keep_rows;
use crate::keep_pairs::keep_pairs;
use crate::layout::{Layout, layout_of};
use fz_prop::{Answer, Propagator, Store};
use fz_spec::term::Term;
use std::alloc::{AllocError, Global};
use std::marker::Model;

/// Terms whose values are to be a row of a table, which is a list of numbers that is cut into rows of as many as there are terms.
#[derive(Drop)]
pub struct Table {
    terms: Vec<Term>,
    numbers: Vec<i32>,
    layout: Layout,
}

impl Model for Table {
    ghost use Rattle.fz_strength.specs.Sayings.{Saying, Row};
    ghost use Rattle.fz_table.specs.Layouts.{IsLayoutOf};

    ghost Value = { Saying };

    ghost view = { λ p. Row p.terms.items p.numbers.items };

    ghost invariant = { λ p. IsLayoutOf p.layout p.terms.items p.numbers.items };
}

impl Table {
    /// The propagator of terms and a table.
    ///
    /// # Errors
    /// `AllocError` where there is no memory.
    pub fn new(alloc: Global, terms: &[Term], numbers: &[i32]) -> Result<Table, AllocError>
        ensures { IfOk result (λ p. p ≡ Row terms.now numbers.now) }
    {
        let layout = layout_of(alloc, terms, numbers)?;
        let terms = Vec::from_slice(alloc, terms)?;
        let numbers = Vec::from_slice(alloc, numbers)?;
        Ok(Table {
            terms,
            numbers,
            layout,
        })
    }
}

impl Propagator for Table {
    ghost saying = { λ p. p };

    fn propagate(&self, store: &mut Store) -> Result<Answer, AllocError> {
        match &self.layout {
            Layout::Pairs(pairs) => {
                let (first, second) = (self.terms[0], self.terms[1]);
                keep_pairs(store, first, second, &self.numbers, pairs)
            }
            Layout::Columns { columns, differ } => {
                let alloc = *self.terms.allocator();
                keep_rows(alloc, store, &self.terms, &self.numbers, columns, *differ)
            }
        }
    }
}
