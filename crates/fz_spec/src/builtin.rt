//! Names of constraints.

use crate::row::{ROWS, shape_at};
use crate::shape::Shape;

/// The name of a constraint (MiniZinc Handbook, "FlatZinc builtins"). The variants stand as the rows of `ROWS` do, which say what each
/// asks of its arguments, and what it says.
#[derive(Clone, Copy, Debug, PartialEq, Eq)]
pub enum Builtin {
    AllDifferentInt,
    ArrayBoolAnd,
    ArrayBoolElement,
    ArrayBoolOr,
    ArrayBoolXor,
    ArrayIntElement,
    ArrayIntMaximum,
    ArrayIntMinimum,
    ArrayVarBoolElement,
    ArrayVarIntElement,
    Bool2Int,
    BoolAnd,
    BoolClause,
    BoolClauseReif,
    BoolEq,
    BoolEqReif,
    BoolLe,
    BoolLeReif,
    BoolLinEq,
    BoolLinLe,
    BoolLt,
    BoolLtReif,
    BoolNot,
    BoolOr,
    BoolXor,
    FznAllDifferentInt,
    FznCumulative,
    FznGlobalCardinality,
    FznInverse,
    FznRegular,
    FznTableBool,
    FznTableInt,
    IntAbs,
    IntDiv,
    IntEq,
    IntEqReif,
    IntLe,
    IntLeReif,
    IntLinEq,
    IntLinEqReif,
    IntLinLe,
    IntLinLeReif,
    IntLinNe,
    IntLinNeReif,
    IntLt,
    IntLtReif,
    IntMax,
    IntMin,
    IntMod,
    IntNe,
    IntNeReif,
    IntPlus,
    IntTimes,
    SetIn,
    SetInReif,
}

impl Builtin {
    ghost use Rattle.std.specs.Prelude.{◌≡◌};
    ghost use Rattle.fz_spec.specs.Signatures.{shape_of};

    /// What it says of its arguments: the shape in its row.
    pub fn shape(self) -> Shape
        ensures { result ≡ shape_of self }
    {
        shape_at(&ROWS, self as usize)
    }
}
