//! Columns of a table: the numbers at a place of its rows, with the rows that have them there (Demeulenaere and others:
//! "Compact-Table"). A column is a list, by rising numbers, of the rows that have the number, 64 rows to a word. Numbers within
//! 64 of one another are a grid; few numbers that are further apart are words as well. Here it is also told whether a list has a
//! variable at two places.
#![tactic(auto)]

pub mod apart;
pub mod column;
pub mod dense;
pub mod grid;
pub mod index;
pub mod line;
pub mod near;
pub mod packed;
pub mod places;
pub mod row_set;
pub mod spans;
pub mod supports;
pub mod walk;

pub use column::Column;
pub use grid::Grid;
pub use line::Line;
