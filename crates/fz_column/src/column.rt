//! Columns of a table: the rows whose number is left, and the numbers of some rows.
ghost use Rattle.std.specs.Prelude.{◌≡◌, ◌<◌, ◌≤ℤ◌, ◌↔◌, ◌⊎◌, ℕ, ℤ, length, IfOk, IfSome, IsTrue};
ghost use Rattle.fz_sets.specs.Sets.{IsInSet, single};
ghost use Rattle.fz_strength.specs.Domains.{dom_at, term_set, IsTermOf};
ghost use Rattle.fz_prop.specs.Matching.{HasRoom};
ghost use Rattle.fz_bits.specs.Members.{HasMember};
ghost use Rattle.fz_bits.specs.Windows.{IsBit};
ghost use Rattle.fz_column.specs.Supports.{AreInOrder, HasNumber, AreSized, StandsIn, IsLeftIn, AreEnds};
ghost use Rattle.fz_column.specs.Dense.{IsDenseOf};
ghost use Rattle.fz_column.specs.Packed.{ArePacked};

use crate::dense::{Dense, dense_of, places_of};
use crate::index::{Index, index_of};
use crate::near::{join_near, numbers_near};
use crate::packed::Packed;
use crate::row_set::{clear, meet};
use crate::spans::Spans;
use crate::supports::Support;
use crate::walk::{add_numbers, first_from, join_to};
use fz_bits::Window;
use fz_dom::Dom;
use fz_prop::Store;
use fz_prop::terms::window_of;
use fz_spec::term::Term;
use std::alloc::{AllocError, Global};
use std::marker::Model;

/// The numbers that stand at a place of the rows, with the rows that have them there.
#[derive(Drop)]
pub struct Column {
    /// From the lowest number up.
    supports: Vec<Support>,
    /// The same rows by the places of their numbers, where these are near to one another.
    dense: Option<Box<Dense>>,
    /// What else supports are found by, where they are many.
    index: Option<Box<Index>>,
}

impl Model for Column {
    ghost use Rattle.std.specs.Prelude.{List, IfSome};
    ghost use Rattle.fz_column.specs.declared.supports.Support.{Support};
    ghost use Rattle.fz_column.specs.Supports.{AreInOrder};
    ghost use Rattle.fz_column.specs.Dense.{IsDenseOf};
    ghost use Rattle.fz_column.specs.Indexes.{IsIndexOf};

    ghost Value = { List Support };

    ghost view = { λ c. c.supports.items };

    ghost invariant = { λ c. AreInOrder c.supports.items
        × IfSome c.dense (λ b. IsDenseOf b.value c.supports.items)
        × IfSome c.index (λ b. IsIndexOf b.value c.supports.items) };
}

impl Column {
    /// The column of the supports of that many rows.
    ///
    /// # Errors
    /// `AllocError` where there is no memory.
    pub fn new(alloc: Global, supports: Vec<Support>, rows: usize) -> Result<Column, AllocError>
        requires { AreInOrder supports.items }
        ensures { IfOk result (λ c. c ≡ supports.items) }
    {
        let dense = dense_of(alloc, &supports, rows)?;
        let index = match dense {
            Some(_) => None,
            None => index_of(alloc, &supports, rows)?,
        };
        Ok(Column {
            supports,
            dense,
            index,
        })
    }

    /// Keeps the rows of a set whose number is left of a term. What the other set has is lost.
    pub fn keep_left(&self, store: &Store, term: Term, rows: &mut [u64], found: &mut [u64])
        requires term { IsTermOf (length store.now.doms) term }
        requires sized { AreSized self.now (length rows.old) }
        requires found { length found.old ≡ length rows.old }
        requires each { (i : ℕ) → HasMember rows.old i → (n : ℤ) × HasNumber self.now n i }
        ensures rows { (i : ℕ) → HasMember rows.new i
            ↔ (HasMember rows.old i × IsLeftIn self.now (term_set store.now.doms term) i) }
        ensures size { length rows.new ≡ length rows.old }
        ensures found { length found.new ≡ length found.old }
    {
        if let Some(dense) = self.dense() {
            dense.grid.keep(places_of(store, term, dense.base), rows);
            return;
        }
        if let Some(index) = &self.index {
            if index.spans.are_left(store, term) {
                return;
            }
        }
        self.find(store, term, found);
        meet(rows, found);
    }

    /// Finds the rows whose number is left of a term.
    fn find(&self, store: &Store, term: Term, found: &mut [u64])
        requires term { IsTermOf (length store.now.doms) term }
        requires sized { AreSized self.now (length found.old) }
        ensures found { (i : ℕ) → HasMember found.new i
            ↔ IsLeftIn self.now (term_set store.now.doms term) i }
        ensures size { length found.new ≡ length found.old }
    {
        clear(found);
        match term {
            Term::Var(variable) => self.join_left(store, variable, found),
            Term::Num(number) => self.join_one(number, found),
        }
    }

    /// Puts the rows that have a number which is left of a variable into a set.
    fn join_left(&self, store: &Store, variable: u32, rows: &mut [u64])
        requires variable { variable < length store.now.doms }
        requires sized { AreSized self.now (length rows.old) }
        ensures rows { (i : ℕ) → HasMember rows.new i
            ↔ (HasMember rows.old i ⊎ IsLeftIn self.now (dom_at store.now.doms variable) i) }
        ensures size { length rows.new ≡ length rows.old }
    {
        match window_of(store, Term::Var(variable)) {
            Some(window) => self.join_near(window, rows),
            None => self.join_in(store.dom(variable), rows),
        }
    }

    /// Puts the rows that have a number of a window into a set.
    fn join_near(&self, window: Window, rows: &mut [u64])
        requires { AreSized self.now (length rows.old) }
        ensures rows { (i : ℕ) → HasMember rows.new i ↔ (HasMember rows.old i
            ⊎ ((n : ℤ) × HasNumber self.now n i × IsBit window.base window.bits n)) }
        ensures size { length rows.new ≡ length rows.old }
    {
        match self.packed() {
            Some(packed) => packed.join_window(window, rows),
            None => join_near(&self.supports, self.ends(), window, rows),
        }
    }

    /// Puts the rows that have a number of a domain into a set.
    fn join_in(&self, dom: &Dom, rows: &mut [u64])
        requires { AreSized self.now (length rows.old) }
        ensures rows { (i : ℕ) → HasMember rows.new i
            ↔ (HasMember rows.old i ⊎ IsLeftIn self.now dom.now i) }
        ensures size { length rows.new ≡ length rows.old }
    {
        let ends = self.ends();
        let mut place = 0;
        for (low, high) in dom.ranges() {
            let first = first_from(&self.supports, ends, place, low);
            place = join_to(&self.supports, first, high, rows);
        }
    }

    /// Puts the rows that have a number into a set.
    fn join_one(&self, number: i32, rows: &mut [u64])
        requires { AreSized self.now (length rows.old) }
        ensures rows { (i : ℕ) → HasMember rows.new i
            ↔ (HasMember rows.old i ⊎ IsLeftIn self.now (single number) i) }
        ensures size { length rows.new ≡ length rows.old }
    {
        let first = first_from(&self.supports, self.ends(), 0, number);
        let _ = join_to(&self.supports, first, number, rows);
    }

    /// The numbers that are left of a variable and that some rows have, where they are near to one another.
    pub fn numbers_left(&self, store: &Store, variable: u32, rows: &[u64]) -> Option<Window>
        requires variable { variable < length store.now.doms }
        requires sized { AreSized self.now (length rows.now) }
        ensures room { IfSome result (λ w. HasRoom w.base) }
        ensures numbers { IfSome result (λ w. (n : ℤ) → IsBit w.base w.bits n
            ↔ (IsInSet (dom_at store.now.doms variable) n × StandsIn self.now rows.now n)) }
    {
        let term = Term::Var(variable);
        if let Some(dense) = self.dense() {
            let base = dense.base;
            let bits = dense.grid.numbers_of(places_of(store, term, base), rows);
            return Some(Window { base, bits });
        }
        let window = window_of(store, term)?;
        Some(self.numbers_near(window, rows))
    }

    /// The numbers of a window that some rows have.
    fn numbers_near(&self, window: Window, rows: &[u64]) -> Window
        requires { AreSized self.now (length rows.now) }
        ensures base { result.base ≡ window.base }
        ensures numbers { (n : ℤ) → IsBit window.base result.bits n
            ↔ (IsBit window.base window.bits n × StandsIn self.now rows.now n) }
    {
        match self.packed() {
            Some(packed) => packed.numbers_within(window, rows),
            None => numbers_near(&self.supports, self.ends(), window, rows),
        }
    }

    /// Whether some rows have each number from a low to a high; it may say no where they do.
    pub fn has_all(&self, low: i32, high: i32, rows: &[u64]) -> bool
        requires sized { AreSized self.now (length rows.now) }
        requires order { low ≤ℤ high }
        ensures { IsTrue result → (n : ℤ) → low ≤ℤ n → n ≤ℤ high → StandsIn self.now rows.now n }
    {
        match self.packed() {
            Some(packed) => packed.has_all(low, high, rows),
            None => false,
        }
    }

    /// The numbers of a domain that some rows have.
    ///
    /// # Errors
    /// `AllocError` where there is no memory.
    pub fn numbers_in(&self, alloc: Global, dom: &Dom, rows: &[u64]) -> Result<Spans, AllocError>
        requires { AreSized self.now (length rows.now) }
        ensures { IfOk result (λ s. (n : ℤ) → IsInSet s n
            ↔ (IsInSet dom.now n × StandsIn self.now rows.now n)) }
    {
        if let Some(packed) = self.packed() {
            return packed.numbers_in(alloc, dom, rows);
        }
        let ends = self.ends();
        let mut numbers = Spans::new(alloc);
        let mut place = 0;
        for (low, high) in dom.ranges() {
            let first = first_from(&self.supports, ends, place, low);
            place = add_numbers(&self.supports, ends, first, high, rows, &mut numbers)?;
        }
        Ok(numbers)
    }

    /// Where the next number begins, as far as that is listed.
    fn ends(&self) -> &[usize]
        ensures { AreEnds self.now result.now }
    {
        match &self.index {
            Some(index) => &index.ends,
            None => &[],
        }
    }

    /// Its rows by the places of its numbers, where these are near to one another.
    fn dense(&self) -> Option<&Dense>
        ensures { IfSome result (λ d. IsDenseOf d.now self.now) }
    {
        match &self.dense {
            Some(dense) => Some(dense),
            None => None,
        }
    }

    /// Its numbers with words of rows, where these are few.
    fn packed(&self) -> Option<&Packed>
        ensures { IfSome result (λ p. ArePacked self.now p.now) }
    {
        match &self.index {
            Some(index) => index.packed.as_ref(),
            None => None,
        }
    }
}
