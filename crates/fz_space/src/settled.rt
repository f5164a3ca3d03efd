//! Numbers that variables have for good.
ghost use Rattle.std.specs.Prelude.{◌≡◌, ◌≤◌, List, ℤ, length, take, unwrap_or, option_map, [], IfOk};
ghost use Rattle.fz_strength.specs.Domains.{AreDomains};
ghost use Rattle.fz_space.specs.Alive.{FrontFixed, AreSettled};

use fz_dom::Dom;
use fz_prop::Store;
use std::alloc::{AllocError, Global};
use std::marker::Model;
use std::sync::ArcSlice;

/// How many more variables at the front have one number before those are taken down.
const MANY: usize = 1024;

/// The numbers of the first variables, which have no others. Copies share them.
#[derive(Drop)]
pub struct Settled {
    /// None where none is taken down.
    numbers: Option<ArcSlice<i32>>,
}

impl Model for Settled {
    ghost use Rattle.std.specs.Prelude.{ℤ, List, [], unwrap_or, option_map};
    ghost use Rattle.std.specs.Arc.{arc_slice_items};

    ghost Value = { List ℤ };

    ghost view = { λ s. unwrap_or (option_map arc_slice_items s.numbers) [] };
}

impl Settled {
    /// Of no variable.
    pub fn none() -> Settled
        ensures { result ≡ [] }
    {
        Settled { numbers: None }
    }

    /// The numbers, in order.
    pub fn numbers(&self) -> &[i32]
        ensures { result.now ≡ self.now }
    {
        match &self.numbers {
            Some(numbers) => numbers.as_slice(),
            None => &[],
        }
    }

    /// The same numbers, shared.
    ///
    /// # Errors
    /// `AllocError` where they are shared too often.
    pub fn share(&self) -> Result<Settled, AllocError>
        ensures { IfOk result (λ s. s ≡ self.now) }
    {
        let numbers = match &self.numbers {
            Some(numbers) => Some(numbers.clone()?),
            None => None,
        };
        Ok(Settled { numbers })
    }

    /// How many of the first variables have the same numbers in both, as far as it shows without a look at a domain.
    pub fn shared_count(&self, other: &Settled) -> usize
        ensures within { (result ≤ length self.now) × (result ≤ length other.now) }
        ensures same { take result self.now ≡ take result other.now }
    {
        if self.numbers() == other.numbers() {
            self.numbers().len()
        } else {
            0
        }
    }

    /// Takes down the numbers of the first variables of a store, where many more of them have one number than before.
    ///
    /// # Errors
    /// `AllocError` where there is no memory.
    pub fn grow(&mut self, alloc: Global, store: &Store, front: usize) -> Result<(), AllocError>
        requires front { FrontFixed front store.now.doms }
        requires settled { AreSettled self.old store.now.doms }
        ensures { AreSettled self.new store.now.doms }
    {
        let known = self.numbers().len();
        if front < known + known / 4 + MANY {
            return Ok(());
        }
        let numbers = first_numbers(alloc, store.doms(), front)?;
        self.numbers = Some(ArcSlice::from_vec(numbers)?);
        Ok(())
    }
}

/// The numbers of the first that many variables, which have one each.
fn first_numbers(alloc: Global, doms: &[Dom], front: usize) -> Result<Vec<i32>, AllocError>
    requires domains { AreDomains doms.now }
    requires front { FrontFixed front doms.now }
    ensures { IfOk result (λ v. AreSettled v.items doms.now) }
{
    let mut numbers = Vec::with_capacity(alloc, front)?;
    for place in 0..front {
        numbers.push(doms[place].min())?;
    }
    Ok(numbers)
}
