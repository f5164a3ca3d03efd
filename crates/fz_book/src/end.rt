//! How a search of a book ends.
ghost use Rattle.std.specs.Prelude.{◌≤◌, ◌↔◌, IsTrue, length, IsSomeAnd};
ghost use Rattle.fz_tree.specs.Book.{BookLaw};

use crate::book::Book;

/// How a search of a book ended.
#[derive(Clone, Copy, Debug, PartialEq, Eq)]
pub enum End {
    /// Nothing is open.
    Closed,
    /// As many are recorded as were asked for.
    Enough,
}

/// Whether as many are recorded as are asked for.
pub fn has_enough(book: &Book, enough: Option<u32>) -> bool
    ensures enough { IsTrue result ↔ IsSomeAnd enough (λ n. n ≤ length book.now.book.recorded) }
    ensures law { BookLaw book.now.book }
{
    let _ = book.model();
    match enough {
        Some(count) => count as usize <= book.recorded_count(),
        None => false,
    }
}
