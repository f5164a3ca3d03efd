//! Lists as they grow. Of elements integers stand alone as long as no other element comes.
ghost use Rattle.std.specs.Prelude.{◌≡◌, [], ◌∷◌, ◌++◌, IfOk, OnOk, MatchOption, map};
ghost use Rattle.fz_syntax.specs.Trees.{integer_basic_of, basic_of, elements_of};
ghost use Rattle.fz_parse.specs.Steps.{IsNoInteger};

use fz_syntax::{Basic, Elements, Integer, Number};
use std::alloc::{AllocError, Global};

/// Makes room for one more: at first for one, then for twice as many, since most of these lists have one or two.
pub(crate) fn grow<T>(items: &mut Vec<T>) -> Result<(), AllocError>
    ensures { items.new.items ≡ items.old.items }
{
    let count = items.len();
    if count < items.capacity() {
        return Ok(());
    }
    items.reserve_exact(if count == 0 { 1 } else { count })?;
    Ok(())
}

/// The integer that an element is.
fn integer_in(basic: &Basic<'_>) -> Option<Integer>
    ensures { MatchOption result (IsNoInteger (basic_of basic.now))
        (λ i. basic_of basic.now ≡ integer_basic_of i) }
{
    match basic {
        Basic::Numeral(Number::Whole(integer)) => Some(*integer),
        _ => None,
    }
}

/// The list of one element, with room for that many.
pub(crate) fn begun<'a>(
    alloc: Global,
    first: Basic<'a>,
    room: usize,
) -> Result<Elements<'a>, AllocError>
    ensures { IfOk result (λ e. elements_of e ≡ basic_of first.entry ∷ []) }
{
    match integer_in(&first) {
        Some(integer) => {
            let mut integers = Vec::with_capacity(alloc, room)?;
            integers.push(integer)?;
            Ok(Elements::Integers(integers))
        }
        None => {
            let mut basics = Vec::with_capacity(alloc, room)?;
            basics.push(first)?;
            Ok(Elements::Basics(basics))
        }
    }
}

/// Puts one element after the others.
pub(crate) fn push<'a>(
    alloc: Global,
    elements: &mut Elements<'a>,
    next: Basic<'a>,
) -> Result<(), AllocError>
    ensures { OnOk result
        (elements_of elements.new ≡ elements_of elements.old ++ basic_of next.entry ∷ []) }
{
    match elements {
        Elements::Integers(integers) => match integer_in(&next) {
            Some(integer) => integers.push(integer)?,
            None => {
                let mut basics = basics_of(alloc, integers, integers.capacity())?;
                basics.push(next)?;
                *elements = Elements::Basics(basics);
            }
        },
        Elements::Basics(basics) => basics.push(next)?,
    }
    Ok(())
}

/// Integers as expressions, with room for that many.
fn basics_of<'a>(
    alloc: Global,
    integers: &[Integer],
    room: usize,
) -> Result<Vec<Basic<'a>>, AllocError>
    ensures { IfOk result (λ b. map basic_of b.items ≡ map integer_basic_of integers.now) }
{
    let mut basics = Vec::with_capacity(alloc, room)?;
    for integer in integers {
        basics.push(Basic::Numeral(Number::Whole(*integer)))?;
    }
    Ok(basics)
}
