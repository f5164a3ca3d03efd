//! Domains of variables: finite sets of whole numbers within the limits of the language, as rising ranges. A domain is made
//! from any list of ranges and read by its ends, its size, its members and its ranges.
//!
//! Least, greatest, base, size and one word of bits stand in 24 bytes. Without holes the word is 0. With holes and at most 64
//! wide it has a bit for each number from the base on. Only wider domains with holes keep ranges, two of them inline. The form
//! changes at the first hole, and when a change narrows ranges to 64.
//!
//! Each change keeps some of the numbers. All changes of bounds are one, `keep_range`; a number is removed as a range of one.
//! The numbers of another domain are kept by a word if one of the two is at most 64 wide, by moved ends if the other is an
//! interval, and else by merging range by range.
#![tactic(auto)]

mod change;
mod close;
mod domain;
mod head;
mod meet;
mod range_iter;
mod rising;
mod union;
mod window;

pub use change::Change;
pub use domain::Dom;
pub use range_iter::RangeIter;
pub use window::single;
