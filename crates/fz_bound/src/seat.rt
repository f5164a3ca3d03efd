//! Seats.
use crate::known::Known;
use atomic_table::Seat as TableSeat;
use std::marker::Model;

/// What one thread has put, and has seen. Contracts see the bound that it is of, the least number that was put through it (2^32
/// where none was), the word as it saw it last, and its parts of 65.
#[derive(Drop)]
pub struct Seat {
    pub(crate) seat: TableSeat<(), Known>,
}

impl Model for Seat {
    ghost use Rattle.std.specs.Prelude.{◌≡◌, [], ◌<◌, ◌≤◌};
    ghost use Rattle.fz_bound.specs.Seats.{Seated, seated};
    ghost use Rattle.fz_bound.specs.Rule.{UNSET};

    ghost Value = { Seated };

    ghost view = { λ s. seated s.seat.table_id s.seat.me.0 };

    ghost invariant = { λ s. (s.seat.me.1 ≡ []) × (0 < s.seat.me.0.parts) × (s.seat.me.0.least ≤ UNSET) };
}
