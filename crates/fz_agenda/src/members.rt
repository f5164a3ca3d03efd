//! Sets of propagators, 64 to a word of bits.
ghost use Rattle.std.specs.Prelude.{◌≡◌, ◌⊎◌, ◌↔◌, ◌<◌, ◌^◌, ℕ, false, IsTrue};
ghost use Rattle.fz_prop.specs.Stores.{IsListed};
ghost use Rattle.fz_agenda.specs.Bits.{members_of};

use fz_bits::Chunk;
use std::marker::Model;

/// Some of 64 propagators whose numbers follow one another.
#[derive(Drop)]
pub struct Members {
    chunk: Chunk,
}

impl Model for Members {
    ghost use Rattle.std.specs.Prelude.{List, ℕ, ◌<◌, ◌^◌};
    ghost use Rattle.fz_agenda.specs.Bits.{members_of};

    ghost Value = { List ℕ };

    ghost view = { λ m. members_of m.chunk.word m.chunk.bits };

    ghost invariant = { λ m. m.chunk.word < 2 ^ 26 };
}

impl Members {
    /// One propagator.
    pub fn one(place: u32) -> Members
        ensures { (i : ℕ) → IsListed result i ↔ (i ≡ place) }
    {
        Members {
            chunk: Chunk::one(place as usize),
        }
    }

    /// One more, where it is one of the 64; whether it is.
    pub fn join(&mut self, place: u32) -> bool
        ensures joined { IsTrue result
            → (i : ℕ) → IsListed self.new i ↔ (IsListed self.old i ⊎ (i ≡ place)) }
        ensures other { result ≡ false → self.new ≡ self.old }
    {
        if place as usize / 64 != self.chunk.word {
            return false;
        }
        self.chunk = self.chunk.with(place as usize);
        true
    }

    /// The word, with its place.
    pub fn chunk(&self) -> Chunk
        ensures members { self.now ≡ members_of result.word result.bits }
        ensures word { result.word < 2 ^ 26 }
    {
        self.chunk
    }
}
