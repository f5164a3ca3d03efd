//! Collectors.
ghost use Rattle.std.specs.Prelude.{◌≡◌, ◌↔◌, IsTrue};
ghost use Rattle.fz_spec.specs.Instance.{Instance};
ghost use Rattle.fz_tree.specs.declared.mode.Mode.{Mode};
ghost use Rattle.fz_collect.specs.NewsOf.{IsNewsOf};

use fz_account::Account;
use fz_model::Assignment;
use std::alloc::Global;

/// What a worker told.
#[derive(Drop)]
pub enum News {
    /// The workers' book took this account.
    Taken(Account),
    /// The workers' book recorded this assignment.
    Better(Assignment),
}

/// What takes in what several workers tell while they search, one after the other. What it writes to is lent to it.
///
/// How it and what it is lent may grow is a relation that each call keeps. What it is told is of its model and mode.
pub trait Collect<K> {
    ghost works: { Self → K → Type 0 };

    ghost enough: { Self → Type 0 };

    ghost grew: { Self → K → Self → K → Type 0 };

    ghost model: { Self → Instance };

    ghost mode: { Self → Mode };

    /// Whether it takes in no more.
    fn has_enough(&self) -> bool
        ensures { IsTrue result ↔ enough self.now };

    /// Whether workers are to be asked for what they found.
    fn is_due(&self, lent: &K) -> bool;

    /// Takes in what a worker told.
    fn take_in(&mut self, alloc: Global, lent: &mut K, news: News)
        requires works { works self.old lent.old }
        requires news { IsNewsOf (model self.old) (mode self.old) news }
        requires more { enough self.old → ⊥ }
        ensures grew { grew self.old lent.old self.new lent.new }
        ensures works { (enough self.new → ⊥) → works self.new lent.new };

    /// What is told by now is taken in.
    fn look_up(&mut self, lent: &mut K)
        requires works { works self.old lent.old }
        requires more { enough self.old → ⊥ }
        ensures grew { grew self.old lent.old self.new lent.new }
        ensures works { (enough self.new → ⊥) → works self.new lent.new };

    ghost keeps: { (a : Self) (i : K) (b : Self) (j : K)
        → grew a i b j → (model b ≡ model a) × (mode b ≡ mode a) };

    ghost stays: { (c : Self) (k : K) → works c k → grew c k c k };

    ghost goes_on: { (a : Self) (i : K) (b : Self) (j : K) (c : Self) (k : K)
        → grew a i b j → works b j → grew b j c k → grew a i c k };
}
