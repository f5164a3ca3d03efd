//! The rule that a program breaks.
ghost use Rattle.std.specs.Prelude.{◌≡◌, ℕ, List, option_map, slice_get};
ghost use Rattle.fz_language.specs.Rules.{at_places};
ghost use Rattle.fz_resolve.specs.Meant.{fault_of};

use fz_language::fault::RuleFault;

/// The first rule that a program breaks, and the place where it does: the count of bytes before it.
#[derive(Clone, Copy, Debug, PartialEq, Eq)]
pub struct Fault {
    pub rule: RuleFault,
    pub at: u32,
}

/// The fault of a rule, if it is broken at some place.
pub fn fault_at(rule: RuleFault, at: Option<u32>) -> Option<Fault>
    ensures { (places : List ℕ) → at ≡ slice_get places 0
        → option_map fault_of result ≡ slice_get (at_places rule places) 0 }
{
    match at {
        Some(at) => Some(Fault { rule, at }),
        None => None,
    }
}
