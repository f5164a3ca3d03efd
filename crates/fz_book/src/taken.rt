//! What becomes of an account.
use fz_account::account::Account;

/// What became of an account that was to be taken into a book. One that wasn't is handed back.
#[derive(Drop)]
pub enum Taken {
    Taken,
    /// The frontier that it is an account of isn't open.
    Stranger(Account),
    /// It is an account of another model.
    Foreign(Account),
    /// There is no memory.
    NoMemory(Account),
}
