//! Whether the terms of two lists are different variables.
ghost use Rattle.std.specs.Prelude.{IsTrue};
ghost use Rattle.fz_inverse.specs.Pointing.{AreApart};

use fz_column::apart::is_before;
use fz_spec::term::Term;

/// That many terms of a list are looked at, each beside all of the first list and those before it.
const MOST: usize = 512;

/// Whether no variable of the second list stands in the first, nor at another place of the second. Of many terms it says no.
pub fn are_apart(firsts: &[Term], seconds: &[Term]) -> bool
    ensures { IsTrue result → AreApart firsts.now seconds.now }
{
    if firsts.len() > MOST || seconds.len() > MOST {
        return false;
    }
    for (place, term) in seconds.iter().enumerate() {
        if is_before(firsts, firsts.len(), *term) {
            return false;
        }
        if is_before(seconds, place, *term) {
            return false;
        }
    }
    true
}
