//! How a team ends, and a portfolio.
use crate::own::OwnBook;
use fz_book::Book;
use fz_collect::Subject;
use fz_model::Assignment;

/// Why a team stopped.
#[derive(Clone, Copy, Debug, PartialEq, Eq)]
pub enum End {
    /// As many are recorded as were asked for.
    Enough,
    /// Nothing is open.
    Closed,
    /// There was no memory.
    Short,
    /// Nothing more is printed of what workers tell.
    Stopped,
}

/// What a team leaves: the book, the best that each worker found or learnt, and the least of their scores.
#[derive(Drop)]
pub struct TeamEnd {
    pub book: Book,
    pub bests: Vec<Assignment>,
    pub word: u64,
    pub end: End,
}

/// What a portfolio leaves: its books in their order, the best that each worker found or learnt, and the least of their scores.
#[derive(Drop)]
pub struct PortfolioEnd<T: Subject> {
    pub books: Vec<OwnBook<T>>,
    pub bests: Vec<Assignment>,
    pub word: u64,
    pub end: End,
}
