//! The ranges of a domain, one after the other.
ghost use Rattle.std.specs.Prelude.{◌≡◌};
ghost use Rattle.std.specs.Iterator.{YieldsFirst, item_count};
ghost use Rattle.fz_dom.specs.Heads.{head_set, IsWhole};

use crate::head::Head;
use fz_bits::word::{bits_above, first_run};
use std::marker::Model;

/// The ranges of a domain from the lowest up, each a low and a high, seen as the list of those that are left.
#[derive(Drop)]
pub struct RangeIter<'a> {
    first: Option<(i32, i32)>,
    /// The number that the lowest bit stands for.
    base: i32,
    word: u64,
    rest: &'a [(i32, i32)],
}

impl<'a> Model for RangeIter<'a> {
    ghost use Rattle.std.specs.Prelude.{ℤ, List};
    ghost use Rattle.fz_dom.specs.Left.{IsBase, left_of};

    ghost Value = { List (ℤ × ℤ) };

    ghost view = { λ r. left_of r.first r.base r.word r.rest.now };

    ghost invariant = { λ r. IsBase r.base r.word };
}

impl<'a> RangeIter<'a> {
    /// The ranges of a list.
    pub fn of_list(rest: &'a [(i32, i32)]) -> RangeIter<'a>
        ensures { result ≡ rest.now }
    {
        RangeIter {
            first: None,
            base: 0,
            word: 0,
            rest,
        }
    }

    /// The ranges of a domain of which nothing but its head is kept.
    pub fn of_head(head: &Head) -> RangeIter<'a>
        requires { IsWhole head.now }
        ensures { result ≡ head_set head.now }
    {
        if head.bits != 0 {
            return RangeIter {
                first: None,
                base: head.base,
                word: head.bits,
                rest: &[],
            };
        }
        if head.size != 0 {
            return RangeIter {
                first: Some((head.low, head.high)),
                base: 0,
                word: 0,
                rest: &[],
            };
        }
        RangeIter::of_list(&[])
    }
}

impl<'a> Iterator for RangeIter<'a> {
    type Item = (i32, i32);

    ghost next_gives = { YieldsFirst (λ rest. rest) };

    ghost remaining = { item_count (λ rest. rest) };

    fn next(&mut self) -> Option<(i32, i32)> {
        if let Some(range) = self.first {
            self.first = None;
            return Some(range);
        }
        if self.word != 0 {
            let (first, last) = first_run(self.word);
            self.word = bits_above(self.word, last);
            return Some((self.base + first as i32, self.base + last as i32));
        }
        let (range, rest) = self.rest.split_first()?;
        self.rest = rest;
        Some(*range)
    }
}
