//! What becomes of an assignment that is offered.
use fz_model::Assignment;

/// What became of an assignment that was offered to a book. One that wasn't recorded is handed back.
#[derive(Drop)]
pub enum Offered {
    Better,
    NotBetter(Assignment),
}
