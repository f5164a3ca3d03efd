//! Reified constraints.
ghost use Rattle.std.specs.Prelude.{◌≡◌, ◌↔◌, IsTrue, map};
ghost use Rattle.fz_spec.specs.Constraints.{OrReified};
ghost use Rattle.fz_model.specs.Arguments.{argument_of};

use fz_model::constraint::Argument;
use fz_model::value_of;

/// Whether what is said holds; with one Boolean more, whether this one is 1 exactly where that is so.
pub(crate) fn or_reified(rest: &[Argument], holds: bool, values: &[i32]) -> bool
    ensures { IsTrue result
        ↔ OrReified (map argument_of rest.now) values.now (IsTrue holds) }
{
    match rest {
        [] => holds,
        [Argument::One(r)] => (value_of(*r, values) == 1) == holds,
        _ => false,
    }
}
