//! The word.
ghost use Rattle.std.specs.Prelude.{◌≡◌, ◌≤◌, ◌<◌, ◌^◌, ◌+◌, ◌-◌, min, IfOk};
ghost use Rattle.fz_bound.specs.Seats.{first_of, with_seen, split_off, split_from, joined};
ghost use Rattle.fz_bound.specs.Rule.{PARTS};

use crate::known::Known;
use crate::rule::{Cuts, Least, Loads, Merges, Puts};
use crate::seat::Seat;
use atomic_table::Table;
use std::alloc::{AllocError, Global};
use std::marker::Model;

/// The least number that was put through any seat, 2^32 where none was. Contracts see which bound it is.
#[derive(Drop)]
pub struct Bound {
    table: Table<(), Known, (), Least, Global>,
}

impl Model for Bound {
    ghost use Rattle.std.specs.Prelude.{◌≡◌};
    ghost use Rattle.atomic_table.specs.Seated.{TableId};

    ghost Value = { TableId };

    ghost view = { λ b. b.table.shared.table_id };

    ghost invariant = { λ b. (b.table.shared.table_id.words ≡ 1) × (b.table.shared.table_id.slots ≡ 0) };
}

impl Bound {
    /// A word that nothing was put in, and a seat that has all parts.
    ///
    /// # Errors
    /// `AllocError` where there is no memory.
    pub fn create(alloc: Global) -> Result<(Bound, Seat), AllocError>
        ensures { IfOk result (λ r. r.1 ≡ first_of r.0) }
    {
        let (table, seat) = Table::<(), Known, (), Least, Global>::of_words(
            alloc,
            &[1 << 32],
            &(),
        )?;
        Ok((Bound { table }, Seat { seat }))
    }

    /// The word. It is never more than this seat had seen or put before.
    pub fn load(&self, seat: &mut Seat) -> u64
        requires { seat.old.bound ≡ self.now }
        ensures seen { seat.new ≡ with_seen seat.old result }
        ensures put { result ≤ seat.old.least }
        ensures falls { result ≤ seat.old.seen }
    {
        self.table.shared.load::<Loads>(&mut seat.seat, 0)
    }

    /// The word becomes the lesser of it and the number.
    pub fn put(&self, seat: &mut Seat, number: u64)
        requires seat { seat.old.bound ≡ self.now }
        requires small { number < 2 ^ 32 }
        ensures least { seat.new.least ≡ min seat.old.least number }
        ensures seen { (seat.new.seen ≤ seat.old.seen) × (seat.new.seen ≤ number) }
        ensures same { (seat.new.bound ≡ seat.old.bound) × (seat.new.parts ≡ seat.old.parts) }
    {
        self.table
            .shared
            .fetch_min::<Puts>(&mut seat.seat, 0, number);
    }

    /// A new seat gets one part, and has put nothing.
    pub fn split(&self, seat: &mut Seat) -> Seat
        requires seat { seat.old.bound ≡ self.now }
        requires parts { 2 ≤ seat.old.parts }
        ensures stays { seat.new ≡ split_from seat.old }
        ensures new { result ≡ split_off seat.old }
    {
        Seat {
            seat: self.table.shared.split_seat::<Cuts>(&mut seat.seat),
        }
    }

    /// What was put through the other seat counts as put through this one.
    pub fn join(&self, seat: &mut Seat, other: Seat)
        requires seat { seat.old.bound ≡ self.now }
        requires other { other.bound ≡ self.now }
        ensures { seat.new ≡ joined seat.old other }
    {
        self.table
            .shared
            .join_seat::<Merges>(&mut seat.seat, other.seat);
    }

    /// The word at the end: at a seat with all parts, the least number that was put through it.
    pub fn close(self, seat: Seat) -> u64
        requires { seat.bound ≡ self }
        ensures { seat.parts ≡ PARTS → result ≡ seat.least }
    {
        let closed = self.table.close_with(seat.seat);
        let word = closed.word(0);
        closed.free();
        word
    }
}
