//! Boxes.
ghost use Rattle.std.specs.Prelude.{◌≡◌, ◌↔◌, ◌<◌, IfOk, IsTrue, length, slice_set};
ghost use Rattle.fz_refutes.specs.Boxes.{AreSets, HasEmpty, declared_box, set_at};

use fz_dom::Dom;
use std::alloc::{AllocError, Global};
use std::marker::Model;

/// A set for each variable. It counts those that are empty.
#[derive(Drop)]
pub struct Area {
    sets: Vec<Dom>,
    empty: usize,
}

impl Model for Area {
    ghost use Rattle.std.specs.Prelude.{ℤ, List};
    ghost use Rattle.fz_cert.specs.Areas.{IsArea};

    ghost Value = { List (List (ℤ × ℤ)) };

    ghost view = { λ a. a.sets.items };

    ghost invariant = { λ a. IsArea a.sets.items a.empty };
}

impl Area {
    /// The sets that the variables of a model are declared with.
    pub fn declared(alloc: Global, model: &fz_model::Model) -> Result<Area, AllocError>
        ensures { IfOk result (λ a. a ≡ declared_box model.now.variables) }
    {
        let variables = model.variables();
        let mut sets = Vec::with_capacity(alloc, variables.len())?;
        let mut empty = 0;
        for variable in variables {
            let set = variable.set();
            if set.is_empty() {
                empty += 1;
            }
            sets.push(set.copy()?)?;
        }
        Ok(Area { sets, empty })
    }

    /// The sets, one for each variable.
    pub fn sets(&self) -> &[Dom]
        ensures sets { result.now ≡ self.now }
        ensures kept { AreSets self.now }
    {
        &self.sets
    }

    /// Whether some set is empty.
    pub fn has_empty(&self) -> bool
        ensures { IsTrue result ↔ HasEmpty self.now }
    {
        self.empty > 0
    }

    /// Puts another set in the place of a variable's, and hands that one back.
    pub fn put(&mut self, variable: u32, set: Dom) -> Dom
        requires { variable < length self.old }
        ensures before { result ≡ set_at self.old variable }
        ensures after { self.new ≡ slice_set self.old variable set }
    {
        if set.is_empty() {
            self.empty += 1;
        }
        let before = std::mem::replace(&mut self.sets[variable as usize], set);
        if before.is_empty() {
            self.empty -= 1;
        }
        before
    }
}
