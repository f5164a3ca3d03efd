//! What is told of variables by their terms.
ghost use Rattle.std.specs.Prelude.{◌≡◌};
ghost use Rattle.fz_shown.specs.Guesses.{told};

use fz_model::Term;

/// Tells a value of a term, where it is a variable.
pub(crate) fn tell<T: Copy>(places: &mut [T], term: Term, value: T)
    ensures { places.new ≡ told term value places.old }
{
    if let Term::Var(variable) = term
        && (variable as usize) < places.len()
    {
        places[variable as usize] = value;
    }
}
