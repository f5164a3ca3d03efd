//! Types of declarations.
ghost use Rattle.std.specs.Prelude.{◌≡◌};
ghost use Rattle.fz_language.specs.Trees as trees;
ghost use Rattle.fz_syntax.specs.Trees.{plain_of, type_of};

use crate::expression::SetLiteral;

/// `bool`, `int` or `float` at its place, or a set of numbers.
#[derive(Drop)]
pub enum Plain {
    AnyBool { at: u32 },
    AnyInt { at: u32 },
    AnyFloat { at: u32 },
    Within(SetLiteral),
}

impl Plain {
    /// The place of the first token.
    pub fn at(&self) -> u32
        ensures { result ≡ trees.plain_at (plain_of self.now) }
    {
        match self {
            Plain::AnyBool { at } | Plain::AnyInt { at } | Plain::AnyFloat { at } => *at,
            Plain::Within(set) => set.at(),
        }
    }
}

/// A type: that of one value, or `set of` it, with the place of `set`.
#[derive(Drop)]
pub enum ValueType {
    One(Plain),
    SetOf { at: u32, plain: Plain },
}

impl ValueType {
    /// The place of the first token.
    pub fn at(&self) -> u32
        ensures { result ≡ trees.type_at (type_of self.now) }
    {
        match self {
            ValueType::One(plain) => plain.at(),
            ValueType::SetOf { at, .. } => *at,
        }
    }
}
