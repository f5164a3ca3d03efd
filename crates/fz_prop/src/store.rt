//! Stores.
ghost use Rattle.std.specs.Prelude.{◌≡◌, ◌≢◌, ◌⊎◌, ℕ, ◌+◌, ◌<◌, ◌≤◌, max, ℤ, ◌≤ℤ◌, ◌+ℤ◌, ◌-ℤ◌, pos, List, [], ◌∷◌, ◌++◌, length, slice_index, slice_index_or, slice_set, take, drop, IfOk, OnOk, OnErr, IfSome, IsNone, MatchOption, replicate, vec_capacity, vec_len};
ghost use Rattle.fz_bits.specs.Windows.{IsBit};
ghost use Rattle.fz_sets.specs.Sets.{IsInSet, LEAST, GREATEST};
ghost use Rattle.fz_dom.specs.Changes.{IsFromTo};
ghost use Rattle.fz_strength.specs.Domains.{dom_at, AreDomains};
ghost use Rattle.fz_prop.specs.Cuts.{Keeps, change_level};
ghost use Rattle.fz_prop.specs.Stores.{Stored, IsStore, Shrinks, IsChangeAt, IsCut, IsNoted, mark_at, with_listed, without_first, declared_sets, IsTaken, HasEmpty, fresh};

use crate::cut::{Cut, cut_one, cut_to, cut_window};
use fz_bits::Window;
use fz_dom::{Change, Dom};
use fz_model::Variable;
use std::alloc::{AllocError, Global};
use std::marker::Model;

/// A domain for each variable, none empty, and the variables that changed, first in first out.
#[derive(Drop)]
pub struct Store {
    doms: Vec<Dom>,
    /// For each variable the level of its changes since it was taken from the list.
    marks: Vec<u8>,
    /// The changed variables from `head` on. Those before it were taken, and are no more than there are variables.
    changed: Vec<u32>,
    head: usize,
}

impl Model for Store {
    ghost use Rattle.std.specs.Prelude.{drop, length, ◌≤◌};
    ghost use Rattle.fz_prop.specs.Stores.{Stored, IsStore};

    ghost Value = { Stored };

    ghost view = { λ s. record {
      doms = s.doms.items;
      marks = s.marks.items;
      changed = drop s.head s.changed.items;
    } };

    ghost invariant = { λ s. IsStore (record {
      doms = s.doms.items;
      marks = s.marks.items;
      changed = drop s.head s.changed.items;
    }) × (s.head ≤ length s.changed.items) × (s.head ≤ length s.doms.items) };
}

impl Store {
    /// A store of the sets that the variables of a model are declared with; `None` exactly where one of them is empty.
    ///
    /// # Errors
    /// `AllocError` where there is no memory.
    pub fn new(alloc: Global, model: &fz_model::Model) -> Result<Option<Store>, AllocError>
        ensures none { IfOk result (λ o. IsNone o → HasEmpty (declared_sets model.now.variables)) }
        ensures some { IfOk result
            (λ o. IfSome o (λ s. s ≡ fresh (declared_sets model.now.variables))) }
    {
        let Some(doms) = declared(alloc, model.variables())? else {
            return Ok(None);
        };
        let marks = Vec::from_elem(alloc, 0, doms.len())?;
        let changed = Vec::with_capacity(alloc, doms.len())?;
        Ok(Some(Store {
            doms,
            marks,
            changed,
            head: 0,
        }))
    }

    /// A store of no variable. It takes no memory.
    pub fn empty(alloc: Global) -> Store
        ensures { result ≡ fresh [] }
    {
        Store {
            doms: Vec::new(alloc),
            marks: Vec::new(alloc),
            changed: Vec::new(alloc),
            head: 0,
        }
    }

    /// Another store that is the same.
    ///
    /// # Errors
    /// `AllocError` where there is no memory.
    pub fn copy(&self) -> Result<Store, AllocError>
        ensures { IfOk result (λ s. s ≡ self.now) }
    {
        let alloc = *self.doms.allocator();
        let doms = copies(alloc, &self.doms)?;
        let marks = Vec::from_slice(alloc, &self.marks)?;
        let mut changed = Vec::with_capacity(alloc, self.doms.len())?;
        changed.extend_from_slice(&self.changed[self.head..])?;
        Ok(Store {
            doms,
            marks,
            changed,
            head: 0,
        })
    }

    /// Writes another store of as many variables over this one, and keeps its room.
    ///
    /// # Errors
    /// `AllocError` where there is no memory; what it then has is a store, and nothing else is known of it.
    pub fn copy_from(&mut self, other: &Store) -> Result<(), AllocError>
        requires { length self.old.doms ≡ length other.now.doms }
        ensures same { OnOk result (self.new ≡ other.now) }
        ensures size { length self.new.doms ≡ length self.old.doms }
    {
        self.copy_rest(other, 0)
    }

    /// Writes another store of as many variables over this one, where both have the same domains before a place, and keeps its room.
    ///
    /// # Errors
    /// `AllocError` where there is no memory; what it then has is a store, and nothing else is known of it.
    pub fn copy_rest(&mut self, other: &Store, from: usize) -> Result<(), AllocError>
        requires size { length self.old.doms ≡ length other.now.doms }
        requires within { from ≤ length other.now.doms }
        requires front { take from self.old.doms ≡ take from other.now.doms }
        ensures same { OnOk result (self.new ≡ other.now) }
        ensures size { length self.new.doms ≡ length self.old.doms }
    {
        overwrite(&mut self.doms, &other.doms, from)?;
        list_again(&mut self.changed, &other.changed[other.head..])?;
        self.head = 0;
        self.marks.copy_from_slice(&other.marks);
        Ok(())
    }

    /// The domains, one for each variable.
    pub fn doms(&self) -> &[Dom]
        ensures doms { result.now ≡ self.now.doms }
        ensures store { IsStore self.now }
    {
        &self.doms
    }

    /// The domain of a variable.
    pub fn dom(&self, variable: u32) -> &Dom
        requires { variable < length self.now.doms }
        ensures dom { result.now ≡ dom_at self.now.doms variable }
        ensures store { IsStore self.now }
    {
        &self.doms[variable as usize]
    }

    /// Keeps the numbers of a variable at or above a value.
    ///
    /// # Errors
    /// `AllocError` where there is no memory; the store is then left as it was. So it is at each change.
    #[inline(always)]
    pub fn keep_from(&mut self, variable: u32, value: i32) -> Result<Change, AllocError>
        requires { variable < length self.old.doms }
        ensures shrinks { Shrinks self.old self.new }
        ensures err { OnErr result (self.new ≡ self.old) }
        ensures change { IfOk result
            (λ r. IsChangeAt r variable (λ x. value ≤ℤ x) self.old self.new) }
    {
        self.cut(variable, Cut::From(value))
    }

    /// Keeps the numbers of a variable at or below a value.
    #[inline(always)]
    pub fn keep_to(&mut self, variable: u32, value: i32) -> Result<Change, AllocError>
        requires { variable < length self.old.doms }
        ensures shrinks { Shrinks self.old self.new }
        ensures err { OnErr result (self.new ≡ self.old) }
        ensures change { IfOk result
            (λ r. IsChangeAt r variable (λ x. x ≤ℤ value) self.old self.new) }
    {
        self.cut(variable, Cut::To(value))
    }

    /// Keeps one number of a variable.
    #[inline(always)]
    pub fn keep_only(&mut self, variable: u32, value: i32) -> Result<Change, AllocError>
        requires { variable < length self.old.doms }
        ensures shrinks { Shrinks self.old self.new }
        ensures err { OnErr result (self.new ≡ self.old) }
        ensures change { IfOk result
            (λ r. IsChangeAt r variable (λ x. x ≡ value) self.old self.new) }
    {
        self.cut(variable, Cut::Only(value))
    }

    /// Keeps the numbers of a variable from a low to a high, both among them.
    #[inline(always)]
    pub fn keep_range(&mut self, variable: u32, low: i32, high: i32) -> Result<Change, AllocError>
        requires { variable < length self.old.doms }
        ensures shrinks { Shrinks self.old self.new }
        ensures err { OnErr result (self.new ≡ self.old) }
        ensures change { IfOk result
            (λ r. IsChangeAt r variable (λ x. IsFromTo low high x) self.old self.new) }
    {
        self.cut(variable, Cut::Range(low, high))
    }

    /// Removes a number of a variable.
    #[inline(always)]
    pub fn remove(&mut self, variable: u32, value: i32) -> Result<Change, AllocError>
        requires { variable < length self.old.doms }
        ensures shrinks { Shrinks self.old self.new }
        ensures err { OnErr result (self.new ≡ self.old) }
        ensures change { IfOk result
            (λ r. IsChangeAt r variable (λ x. x ≢ value) self.old self.new) }
    {
        self.cut(variable, Cut::Without(value))
    }

    /// Removes the numbers of a variable from a low to a high, both among them.
    pub fn remove_range(&mut self, variable: u32, low: i32, high: i32) -> Result<Change, AllocError>
        requires { variable < length self.old.doms }
        ensures shrinks { Shrinks self.old self.new }
        ensures err { OnErr result (self.new ≡ self.old) }
        ensures change { IfOk result
            (λ r. IsChangeAt r variable (λ x. IsFromTo low high x → ⊥) self.old self.new) }
    {
        self.cut(variable, Cut::WithoutRange(low, high))
    }

    /// Keeps the numbers of a variable that are in a domain.
    pub fn keep(&mut self, variable: u32, other: &Dom) -> Result<Change, AllocError>
        requires { variable < length self.old.doms }
        ensures shrinks { Shrinks self.old self.new }
        ensures err { OnErr result (self.new ≡ self.old) }
        ensures change { IfOk result
            (λ r. IsChangeAt r variable (λ x. IsInSet other.now x) self.old self.new) }
    {
        self.keep_shifted(variable, other, 0)
    }

    /// Keeps the numbers of a variable that lie a shift above those of a domain.
    pub fn keep_shifted(
        &mut self,
        variable: u32,
        other: &Dom,
        shift: i32,
    ) -> Result<Change, AllocError>
        requires { variable < length self.old.doms }
        ensures shrinks { Shrinks self.old self.new }
        ensures err { OnErr result (self.new ≡ self.old) }
        ensures change { IfOk result
            (λ r. IsChangeAt r variable (λ x. IsInSet other.now (x -ℤ shift)) self.old self.new) }
    {
        let place = variable as usize;
        self.changed.reserve(1)?;
        let (change, level) = cut_to(&mut self.doms[place], other, shift)?;
        note(&mut self.marks, &mut self.changed, variable, change, level);
        Ok(change)
    }

    /// Keeps the numbers of a variable that are those of a window.
    #[inline(always)]
    pub fn keep_window(&mut self, variable: u32, window: Window) -> Result<Change, AllocError>
        requires variable { variable < length self.old.doms }
        requires floor { LEAST ≤ℤ window.base }
        requires ceiling { (window.base +ℤ pos 63) ≤ℤ GREATEST }
        ensures shrinks { Shrinks self.old self.new }
        ensures err { OnErr result (self.new ≡ self.old) }
        ensures change { IfOk result
            (λ r. IsChangeAt r variable (λ x. IsBit window.base window.bits x) self.old self.new) }
    {
        let place = variable as usize;
        self.changed.reserve(1)?;
        let (change, level) = cut_window(&mut self.doms[place], window);
        note(&mut self.marks, &mut self.changed, variable, change, level);
        Ok(change)
    }

    /// Keeps the numbers of a variable that lie a shift above those of another, or of itself.
    pub fn keep_partners(
        &mut self,
        variable: u32,
        other: u32,
        shift: i32,
    ) -> Result<Change, AllocError>
        requires variable { variable < length self.old.doms }
        requires other { other < length self.old.doms }
        ensures shrinks { Shrinks self.old self.new }
        ensures err { OnErr result (self.new ≡ self.old) }
        ensures change { IfOk result (λ r. IsChangeAt r variable
            (λ x. IsInSet (dom_at self.old.doms other) (x -ℤ shift)) self.old self.new) }
        ensures store { IsStore self.old }
    {
        let others = self.dom(other);
        if let Some(window) = others.window(shift) {
            return self.keep_window(variable, window);
        }
        let others = others.copy()?;
        self.keep_shifted(variable, &others, shift)
    }

    /// The first of the changed variables, if one changed.
    pub fn first_changed(&self) -> Option<u32>
        ensures first { MatchOption result (self.now.changed ≡ [])
            (λ v. (rest : List ℕ) × (self.now.changed ≡ v ∷ rest)) }
        ensures unmarked { IsNone result → (v : ℕ) → mark_at self.now v ≡ 0 }
        ensures inside { IfSome result (λ v. v < length self.now.doms) }
        ensures store { IsStore self.now }
    {
        if self.head < self.changed.len() {
            Some(self.changed[self.head])
        } else {
            None
        }
    }

    /// The level of the changes of a variable since it was taken from the list, 0 where there was none.
    pub fn mark(&self, variable: u32) -> u8
        requires { variable < length self.now.doms }
        ensures { result ≡ mark_at self.now variable }
    {
        self.marks[variable as usize]
    }

    /// Takes the first of the changed variables from the list.
    pub fn take_changed(&mut self)
        requires { 0 < length self.old.changed }
        ensures { IsTaken self.old self.new }
    {
        let first = self.changed[self.head];
        self.marks[first as usize] = 0;
        self.head = close_up(&mut self.changed, self.head + 1, self.doms.len());
    }

    /// The first of the changed variables, which is taken from the list; `None` exactly where none changed.
    pub fn next_changed(&mut self) -> Option<u32>
        ensures none { IsNone result → (self.new ≡ self.old) × (self.old.changed ≡ []) }
        ensures some { IfSome result
            (λ v. (rest : List ℕ) × (self.old.changed ≡ v ∷ rest)
            × (self.new ≡ without_first self.old v rest)) }
    {
        let first = self.first_changed()?;
        self.take_changed();
        Some(first)
    }

    #[inline(always)]
    fn cut(&mut self, variable: u32, cut: Cut) -> Result<Change, AllocError>
        requires { variable < length self.old.doms }
        ensures shrinks { Shrinks self.old self.new }
        ensures err { OnErr result (self.new ≡ self.old) }
        ensures change { IfOk result (λ r. IsChangeAt r variable (Keeps cut) self.old self.new) }
    {
        let place = variable as usize;
        self.changed.reserve(1)?;
        let (change, level) = cut_one(&mut self.doms[place], cut)?;
        note(&mut self.marks, &mut self.changed, variable, change, level);
        Ok(change)
    }
}

/// Marks and lists a variable if something left its domain.
#[inline(always)]
fn note(marks: &mut Vec<u8>, changed: &mut Vec<u32>, variable: u32, change: Change, level: u8)
    requires place { variable < length marks.old.items }
    requires room { vec_len changed.old < vec_capacity changed.old }
    ensures { IsNoted change level variable marks.old.items marks.new.items
        changed.old.items changed.new.items }
{
    match change {
        Change::Same | Change::Wiped => {}
        Change::Changed => mark(marks, changed, variable, level),
    }
}

/// Marks a variable with the level of a change, and lists it unless its mark says that it is listed.
#[inline(always)]
fn mark(marks: &mut Vec<u8>, changed: &mut Vec<u32>, variable: u32, level: u8)
    requires place { variable < length marks.old.items }
    requires room { vec_len changed.old < vec_capacity changed.old }
    ensures marks { marks.new.items ≡ slice_set marks.old.items variable
        (max (slice_index marks.old.items variable) level) }
    ensures changed { changed.new.items
        ≡ with_listed (slice_index marks.old.items variable) variable changed.old.items }
{
    let place = variable as usize;
    let before = marks[place];
    if before == 0 {
        list(changed, variable);
    }
    marks[place] = before.max(level);
}

fn list(changed: &mut Vec<u32>, variable: u32)
    requires room { vec_len changed.old < vec_capacity changed.old }
    ensures { changed.new.items ≡ changed.old.items ++ variable ∷ [] }
{
    match changed.push(variable) {
        Ok(()) | Err(_) => {}
    }
}

/// Those that were taken leave a list of changed variables once none is left after them, or they are as many as there are variables.
/// It tells how many are still there.
#[inline(always)]
fn close_up(changed: &mut Vec<u32>, taken: usize, variables: usize) -> usize
    requires { taken ≤ length changed.old.items }
    ensures left { drop result changed.new.items ≡ drop taken changed.old.items }
    ensures inside { result ≤ length changed.new.items }
    ensures few { result ≤ variables }
{
    if taken == changed.len() {
        changed.clear();
        return 0;
    }
    if taken < variables {
        return taken;
    }
    move_up(changed, taken);
    0
}

/// The first that many leave a list.
#[inline(never)]
fn move_up(list: &mut Vec<u32>, count: usize)
    requires { count ≤ length list.old.items }
    ensures { list.new.items ≡ drop count list.old.items }
{
    let left = list.len() - count;
    list.rotate_left(count);
    list.truncate(left);
}

/// Copies of the sets of variables; `None` exactly where one of them is empty.
fn declared(alloc: Global, variables: &[Variable]) -> Result<Option<Vec<Dom>>, AllocError>
    ensures none { IfOk result (λ o. IsNone o → HasEmpty (declared_sets variables.now)) }
    ensures some { IfOk result (λ o. IfSome o
        (λ d. (d.items ≡ declared_sets variables.now) × AreDomains d.items)) }
{
    let mut doms = Vec::with_capacity(alloc, variables.len())?;
    for variable in variables {
        let set = variable.set();
        if set.is_empty() {
            return Ok(None);
        }
        doms.push(set.copy()?)?;
    }
    Ok(Some(doms))
}

/// Copies of domains.
fn copies(alloc: Global, doms: &[Dom]) -> Result<Vec<Dom>, AllocError>
    ensures { IfOk result (λ v. v.items ≡ doms.now) }
{
    let mut copies = Vec::with_capacity(alloc, doms.len())?;
    for dom in doms {
        copies.push(dom.copy()?)?;
    }
    Ok(copies)
}

/// Writes domains over others, from a place on before which both are the same.
fn overwrite(doms: &mut Vec<Dom>, others: &[Dom], from: usize) -> Result<(), AllocError>
    requires size { length doms.old.items ≡ length others.now }
    requires within { from ≤ length others.now }
    requires front { take from doms.old.items ≡ take from others.now }
    requires domains { AreDomains doms.old.items }
    requires other_domains { AreDomains others.now }
    ensures same { OnOk result (doms.new.items ≡ others.now) }
    ensures size { length doms.new.items ≡ length doms.old.items }
    ensures domains { AreDomains doms.new.items }
{
    for i in from..others.len() {
        doms[i].copy_from(&others[i])?;
    }
    Ok(())
}

/// Writes a list over the changed variables.
fn list_again(changed: &mut Vec<u32>, list: &[u32]) -> Result<(), AllocError>
    ensures same { OnOk result (changed.new.items ≡ list.now) }
    ensures err { OnErr result (changed.new.items ≡ changed.old.items) }
{
    if list.is_empty() {
        changed.clear();
        return Ok(());
    }
    let alloc = *changed.allocator();
    *changed = Vec::from_slice(alloc, list)?;
    Ok(())
}
