//! Rows of tables.
ghost use Rattle.std.specs.Prelude.{◌≡◌, ◌↔◌, IsTrue};
ghost use Rattle.fz_spec.specs.Constraints.{term_values};
ghost use Rattle.fz_spec.specs.Truth.{IsRowOf};

use crate::terms::has_value;
use fz_spec::term::Term;

/// Whether the values of the terms are one of the rows of the table, which is cut into rows of as many numbers.
pub(crate) fn is_row_of(terms: &[Term], table: &[i32], values: &[i32]) -> bool
    ensures { IsTrue result ↔ IsRowOf (term_values values.now terms.now) table.now }
{
    if terms.is_empty() {
        return false;
    }
    let width = terms.len();
    for i in 0..table.len() / width {
        if is_row(terms, &table[i * width..i * width + width], values) {
            return true;
        }
    }
    false
}

/// Whether the values of the terms are these numbers, one by one.
fn is_row(terms: &[Term], row: &[i32], values: &[i32]) -> bool
    ensures { IsTrue result ↔ (term_values values.now terms.now ≡ row.now) }
{
    if terms.len() != row.len() {
        return false;
    }
    for (i, number) in row.iter().enumerate() {
        if !has_value(terms[i], *number, values) {
            return false;
        }
    }
    true
}
