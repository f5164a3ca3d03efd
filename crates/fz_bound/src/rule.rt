//! The rule of the word, and what each step makes of the seat that takes it.
ghost use Rattle.std.specs.Prelude.{◌≡◌, ◌≤◌, ◌-◌, min};
ghost use Rattle.fz_bound.specs.Rule.{IsBound, UNSET, first, loaded, is_put, left, right, both, spent};

use crate::known::Known;
use atomic_table::{Join, Play, Split, TableRule};

/// The word is the least number that was put through any seat.
pub(crate) struct Least;

impl TableRule<(), Known, ()> for Least {
    ghost holds = { λ _ s. IsBound s };

    ghost first = { λ _. first };
}

/// A seat sees the word.
pub(crate) struct Loads;

impl Play<(), Known> for Loads {
    ghost then = { λ step me n after. (after ≡ (loaded me.0 n, me.1)) × (n ≤ me.0.least) × (n ≤ me.0.seen) };
}

/// A number is put through a seat.
pub(crate) struct Puts;

impl Play<(), Known> for Puts {
    ghost then = { λ step me n after. (after ≡ (is_put me.0 (min n step.first) step.first, me.1)) × (n ≤ me.0.seen) };
}

/// A seat that has put nothing gets one part of another.
pub(crate) struct Cuts;

impl Split<Known> for Cuts {
    ghost left = { left };

    ghost right = { right };
}

/// Two seats are made one.
pub(crate) struct Merges;

impl Join<Known> for Merges {
    ghost both = { both };

    ghost spent = { spent };
}
