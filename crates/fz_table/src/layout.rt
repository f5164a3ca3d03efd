//! What a table is looked at by.
ghost use Rattle.std.specs.Prelude.{IfOk};
ghost use Rattle.fz_table.specs.Layouts.{IsLayoutOf};

use crate::columns::columns_of;
use crate::pairs::{Pairs, pairs_of_two};
use fz_column::Column;
use fz_column::apart::do_differ;
use fz_spec::term::Term;
use std::alloc::{AllocError, Global};

/// What the rows of a table are looked at by.
#[derive(Drop)]
pub enum Layout {
    /// The partners of each number, of two columns whose numbers are near to one another.
    Pairs(Pairs),
    /// The rows of each number of each column.
    Columns {
        columns: Vec<Column>,
        /// Whether no variable stands at two places, as far as that was looked at.
        differ: bool,
    },
}

/// What a table is looked at by, whose rows are as long as a list of terms.
///
/// # Errors
/// `AllocError` where there is no memory.
pub fn layout_of(alloc: Global, terms: &[Term], table: &[i32]) -> Result<Layout, AllocError>
    ensures { IfOk result (λ l. IsLayoutOf l terms.now table.now) }
{
    if let Some(pairs) = pairs_of_two(alloc, table, terms.len())? {
        return Ok(Layout::Pairs(pairs));
    }
    let columns = columns_of(alloc, table, terms.len())?;
    let differ = do_differ(terms);
    Ok(Layout::Columns { columns, differ })
}
