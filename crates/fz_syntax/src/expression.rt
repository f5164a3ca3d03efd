//! Expressions.
ghost use Rattle.std.specs.Prelude.{◌≡◌, length};
ghost use Rattle.fz_language.specs.Trees as trees;
ghost use Rattle.fz_syntax.specs.Trees.{number_of, set_of, basic_of, elements_of, expression_of};

use crate::leaf::{Integer, Name};

/// A number: an integer, or a float at its place.
#[derive(Clone, Copy, Debug)]
pub enum Number {
    Whole(Integer),
    Float { at: u32 },
}

impl Number {
    /// The place of the first token.
    pub fn at(self) -> u32
        ensures { result ≡ trees.number_at (number_of self) }
    {
        match self {
            Number::Whole(integer) => integer.at,
            Number::Float { at } => at,
        }
    }
}

/// A set: `low..high`, or its members between braces, with the place of the first.
#[derive(Drop)]
pub enum SetLiteral {
    Range { low: Number, high: Number },
    Braces { at: u32, members: Vec<Number> },
}

impl SetLiteral {
    /// The place of the first token.
    pub fn at(&self) -> u32
        ensures { result ≡ trees.set_at (set_of self.now) }
    {
        match self {
            SetLiteral::Range { low, .. } => low.at(),
            SetLiteral::Braces { at, .. } => *at,
        }
    }
}

/// An expression that is no list: `true` or `false`, a number, a set, or a name. Lists may have a million elements, so a set stands in
/// a box, since it is the largest and seldom there, unless it has at most one member, between braces; and a name's parts stand in the
/// variant itself, its place beside the tag.
#[derive(Drop)]
pub enum Basic<'a> {
    Truth { value: bool, at: u32 },
    Numeral(Number),
    Small { at: u32, member: Option<Number> },
    Literal(Box<SetLiteral>),
    Named { at: u32, bytes: &'a [u8] },
}

impl<'a> Basic<'a> {
    /// The place of the first token.
    pub fn at(&self) -> u32
        ensures { result ≡ trees.basic_at (basic_of self.now) }
    {
        match self {
            Basic::Truth { at, .. } | Basic::Small { at, .. } => *at,
            Basic::Numeral(number) => number.at(),
            Basic::Literal(set) => set.at(),
            Basic::Named { at, .. } => *at,
        }
    }
}

/// The elements of a list. Integers alone may stand by themselves, at eight bytes each, as in the long lists of tables; any
/// elements, also integers alone, may stand as expressions.
#[derive(Drop)]
pub enum Elements<'a> {
    Integers(Vec<Integer>),
    Basics(Vec<Basic<'a>>),
}

impl<'a> Elements<'a> {
    /// How many there are.
    pub fn len(&self) -> usize
        ensures { result ≡ length (elements_of self.now) }
    {
        match self {
            Elements::Integers(integers) => integers.len(),
            Elements::Basics(basics) => basics.len(),
        }
    }
}

/// `[element, element, ..]`, with the place of the bracket.
#[derive(Drop)]
pub struct ListLiteral<'a> {
    pub at: u32,
    pub elements: Elements<'a>,
}

/// An argument of a constraint: an expression that is no list, or a list with the place of its bracket. There are many of them, so
/// the parts of each form of a list stand in a variant, which takes no more room than the first.
#[derive(Drop)]
pub enum Expression<'a> {
    Scalar(Basic<'a>),
    Integers { at: u32, integers: Vec<Integer> },
    Basics { at: u32, basics: Vec<Basic<'a>> },
}

impl<'a> Expression<'a> {
    /// The place of the first token.
    pub fn at(&self) -> u32
        ensures { result ≡ trees.expression_at (expression_of self.now) }
    {
        match self {
            Expression::Scalar(basic) => basic.at(),
            Expression::Integers { at, .. } | Expression::Basics { at, .. } => *at,
        }
    }
}
