//! Annotations.
ghost use Rattle.std.specs.Prelude.{◌≡◌, ◌≢◌, ◌≤◌, ◌<◌, [], ◌∷◌, MatchOption, IfSome, length, drop};
ghost use Rattle.fz_language.specs.Trees as lang;
ghost use Rattle.fz_syntax.specs.Reaches.{reached};
ghost use Rattle.fz_syntax.specs.Trees.{trees_of, count_of, nested_of, with_inside, inside};

use crate::expression::Basic;
use crate::leaf::Name;

/// Arguments of an annotation stand in one list, in the order of the text: an expression that is no list, a string at its place, the
/// name of a call, or the bracket of a list. After a call and a bracket stand the arguments that it has, that many, each with its own.
/// An annotation without arguments is an expression, its name.
#[derive(Drop)]
pub enum Argument<'a> {
    Simple(Basic<'a>),
    Text {
        at: u32,
    },
    Call {
        at: u32,
        bytes: &'a [u8],
        count: usize,
    },
    Brackets {
        at: u32,
        count: usize,
    },
}

impl<'a> Argument<'a> {
    /// How many arguments it has.
    fn count(&self) -> usize
        ensures { result ≡ count_of self.now }
    {
        match self {
            Argument::Simple(_) | Argument::Text { .. } => 0,
            Argument::Call { count, .. } | Argument::Brackets { count, .. } => *count,
        }
    }
}

/// An argument of an annotation with those inside it.
#[derive(Clone, Copy)]
pub enum Nested<'i, 'a> {
    Simple(&'i Basic<'a>),
    Text {
        at: u32,
    },
    Call {
        name: Name<'a>,
        arguments: &'i [Argument<'a>],
    },
    Brackets {
        at: u32,
        arguments: &'i [Argument<'a>],
    },
}

/// How many elements of a list that many arguments take.
fn reach(arguments: &[Argument<'_>], count: usize) -> usize
    ensures reached { result ≡ reached arguments.now count }
    ensures within { result ≤ length arguments.now }
{
    let end = arguments.len();
    let mut left = count;
    for i in 0..end {
        if left == 0 {
            return i;
        }
        left = (left - 1).saturating_add(arguments[i].count());
    }
    end
}

/// The argument at a place of the list, and the place after it and those inside it.
pub fn first_at<'i, 'a>(
    arguments: &'i [Argument<'a>],
    place: usize,
) -> Option<(Nested<'i, 'a>, usize)>
    requires { place ≤ length arguments.now }
    ensures first { MatchOption result (trees_of (drop place arguments.now) ≡ [])
        (λ f. trees_of (drop place arguments.now) ≡ nested_of f.0 ∷ trees_of (drop f.1 arguments.now)) }
    ensures inside { IfSome result (λ f. inside f.0 < length arguments.now) }
    ensures behind { IfSome result (λ f. place < f.1) }
    ensures within { IfSome result (λ f. f.1 ≤ length arguments.now) }
{
    let left = &arguments[place..];
    let (first, rest) = left.split_first()?;
    let end = reach(rest, first.count());
    Some((whole(first, &rest[..end]), place + 1 + end))
}

/// The first of these arguments, and those after it.
pub fn first_of<'i, 'a>(
    arguments: &'i [Argument<'a>],
) -> Option<(Nested<'i, 'a>, &'i [Argument<'a>])>
    ensures first { MatchOption result (trees_of arguments.now ≡ [])
        (λ f. trees_of arguments.now ≡ nested_of f.0 ∷ trees_of f.1.now) }
    ensures inside { IfSome result (λ f. inside f.0 < length arguments.now) }
    ensures behind { IfSome result (λ f. length f.1.now < length arguments.now) }
{
    let (first, end) = first_at(arguments, 0)?;
    Some((first, &arguments[end..]))
}

/// The one argument that there is.
pub fn only_of<'i, 'a>(arguments: &'i [Argument<'a>]) -> Option<Nested<'i, 'a>>
    ensures only { MatchOption result ((a : lang.Argument) → trees_of arguments.now ≢ a ∷ [])
        (λ only. trees_of arguments.now ≡ nested_of only ∷ []) }
    ensures inside { IfSome result (λ only. inside only < length arguments.now) }
{
    let (only, rest) = first_of(arguments)?;
    match first_of(rest) {
        Some(_) => None,
        None => Some(only),
    }
}

/// An argument with those inside it.
fn whole<'i, 'a>(first: &'i Argument<'a>, arguments: &'i [Argument<'a>]) -> Nested<'i, 'a>
    ensures tree { nested_of result ≡ with_inside first.now (trees_of arguments.now) }
    ensures inside { inside result ≤ length arguments.now }
{
    match first {
        Argument::Simple(basic) => Nested::Simple(basic),
        Argument::Text { at } => Nested::Text { at: *at },
        Argument::Call { at, bytes, .. } => Nested::Call {
            name: Name {
                bytes: *bytes,
                at: *at,
            },
            arguments,
        },
        Argument::Brackets { at, .. } => Nested::Brackets { at: *at, arguments },
    }
}

/// `name`, or `name(argument, argument, ..)`.
#[derive(Drop)]
pub struct Annotation<'a> {
    pub name: Name<'a>,
    pub arguments: Option<Vec<Argument<'a>>>,
}
