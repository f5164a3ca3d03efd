//! What a sum is by its variables: the difference of two, three on a plane, or any other.
ghost use Rattle.fz_linear.specs.Shapes.{IsShapeIn};

use fz_shift::{Difference, Plane, difference_of, plane_of};
use fz_spec::term::Term;

/// What a sum is that is to be a number, or isn't.
#[derive(Clone, Copy)]
pub enum Shape {
    /// The difference of two variables.
    Two(Difference),
    /// One of three variables, which lie on a plane where it is the number.
    Three(Plane),
    /// Any other.
    Other,
}

/// What a sum is.
pub fn shape_of(factors: &[i32], terms: &[Term], number: i32) -> Shape
    ensures { IsShapeIn result factors.now terms.now number }
{
    if let Some(difference) = difference_of(factors, terms, number) {
        return Shape::Two(difference);
    }
    match plane_of(factors, terms, number) {
        Some(plane) => Shape::Three(plane),
        None => Shape::Other,
    }
}
