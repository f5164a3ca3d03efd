//! Whether terms are different variables.
ghost use Rattle.std.specs.Prelude.{◌≡◌, ◌≤◌, length, false, IsTrue};
ghost use Rattle.fz_column.specs.Apart.{AreApart, IsNotBefore};

use fz_spec::term::Term;

/// That many terms are looked at, each beside all before it.
const MOST: usize = 512;

/// Whether no variable stands at two places. Of many terms it says no.
pub fn do_differ(terms: &[Term]) -> bool
    ensures { IsTrue result → AreApart terms.now }
{
    if terms.len() > MOST {
        return false;
    }
    for (place, term) in terms.iter().enumerate() {
        if is_before(terms, place, *term) {
            return false;
        }
    }
    true
}

/// Whether a term is a variable that stands before a place.
pub fn is_before(terms: &[Term], place: usize, term: Term) -> bool
    requires { place ≤ length terms.now }
    ensures { result ≡ false → IsNotBefore terms.now place term }
{
    let Term::Var(_) = term else {
        return false;
    };
    for before in 0..place {
        if terms[before] == term {
            return true;
        }
    }
    false
}
