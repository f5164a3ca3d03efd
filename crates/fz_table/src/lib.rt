//! The propagator of a list of terms that takes the numbers of a row of a table (Demeulenaere and others: "Compact-Table").
//!
//! A run finds the rows that lie in the domains, and keeps of each variable the numbers that some of these rows have. Columns
//! that lost nothing are passed. A table of two columns is words of partners. It rests at once, unless a variable stands twice.
//! Up to 1,023 rows and 64 numbers nothing is allocated.
#![tactic(auto)]

mod columns;
mod keep;
mod keep_pairs;
mod layout;
mod matching;
mod pairs;
mod rows;
pub mod table;

pub use table::Table;
