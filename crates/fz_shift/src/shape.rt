//! Which sums are planes.
ghost use Rattle.std.specs.Prelude.{◌≡◌, IfSome, ℤ, List, [], ◌∷◌, pos, negsuc};
ghost use Rattle.fz_shift.specs.Planes.{IsPlaneIn};

use crate::plane::Plane;
use fz_spec::term::Term;

/// The greatest factor, and with the other sign the least.
const FACTOR_MOST: i32 = 255;

/// A term with its factor.
#[derive(Clone, Copy)]
struct Part {
    factor: i32,
    term: Term,
}

/// The plane that a sum is which is to be a number, if it is one of three different variables, two of which have the factors 1
/// and -1, and the third one farther from 0.
pub fn plane_of(factors: &[i32], terms: &[Term], number: i32) -> Option<Plane>
    ensures { IfSome result (λ p. IsPlaneIn p factors.now terms.now number) }
{
    if factors.len() != 3 || terms.len() != 3 {
        return None;
    }
    let first = Part {
        factor: factors[0],
        term: terms[0],
    };
    let second = Part {
        factor: factors[1],
        term: terms[1],
    };
    let third = Part {
        factor: factors[2],
        term: terms[2],
    };
    plane_of_three(first, second, third, number)
}

/// The same, of three parts.
fn plane_of_three(first: Part, second: Part, third: Part, number: i32) -> Option<Plane>
    ensures { IfSome result (λ p. IsPlaneIn p (first.factor ∷ second.factor ∷ third.factor ∷ [])
        (first.term ∷ second.term ∷ third.term ∷ []) number) }
{
    if second.factor == 1 && third.factor == -1 {
        return plane_at(first, second.term, third.term, number);
    }
    if second.factor == -1 && third.factor == 1 {
        return plane_at(first, third.term, second.term, number);
    }
    if first.factor == 1 && third.factor == -1 {
        return plane_at(second, first.term, third.term, number);
    }
    if first.factor == -1 && third.factor == 1 {
        return plane_at(second, third.term, first.term, number);
    }
    if first.factor == 1 && second.factor == -1 {
        return plane_at(third, first.term, second.term, number);
    }
    if first.factor == -1 && second.factor == 1 {
        return plane_at(third, second.term, first.term, number);
    }
    None
}

/// The plane of three different variables, of which the first has the factor 1 and the second -1.
fn plane_at(across: Part, first: Term, second: Term, number: i32) -> Option<Plane>
    ensures { IfSome result (λ p. IsPlaneIn p (across.factor ∷ pos 1 ∷ negsuc 0 ∷ [])
        (across.term ∷ first ∷ second ∷ []) number) }
{
    let factor = across.factor;
    let (Term::Var(across), Term::Var(first), Term::Var(second)) = (across.term, first, second)
    else {
        return None;
    };
    if -1 <= factor && factor <= 1 {
        return None;
    }
    if factor < -FACTOR_MOST || FACTOR_MOST < factor || number == i32::MIN {
        return None;
    }
    if across == first || across == second || first == second {
        return None;
    }
    Some(Plane {
        across,
        first,
        second,
        factor,
        number,
    })
}
