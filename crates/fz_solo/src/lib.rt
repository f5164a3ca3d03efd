//! One worker's search of a whole book: each open frontier by a path, until none is left or enough is recorded; and the same with a
//! printer, which prints on its way.
#![tactic(auto)]

mod pace;
pub mod solo;
pub mod streaming;
pub mod stretches;

pub use solo::{finish, take_up};
pub use streaming::stream;
pub use stretches::{Halt, Pause, stretch};
