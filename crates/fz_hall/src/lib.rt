//! The propagator of terms that are all different by the bounds of all: an interval that as many terms are confined to as it has
//! numbers is theirs (Leconte: "A bounds-based reduction scheme for constraints of difference").
//!
//! Within 64 numbers it counts how many terms begin and end at each of them. Else each term gets a number of its own, that with the
//! least greatest number first (Lipski, Preparata: "Efficient algorithms for finding maximum matchings in convex bipartite graphs").
//! Where each has one no interval has too many. In a full one each number is that of a term confined to it, so it goes on to the
//! greatest number of each of these: from a term's least number it is looked whether such steps reach the term's own. The opposite
//! numbers are looked at in the same way. Intervals that seem to be crossed are tried; where none narrows, those of all ends are.
#![tactic(auto)]

mod close;
mod counts;
mod crossed;
pub mod hall;
mod interval;
mod lefts;
mod narrow;
mod room;
mod scan;
mod seats;
mod tops;

pub use hall::HallIntervals;
