//! Words of 64 bits, each seen as the set of the places of its ones.
ghost use Rattle.std.specs.Prelude.{◌≡◌, ◌<◌, ◌≤◌, ◌+◌, ◌-◌, ◌↔◌, ◌⊎◌, IsTrue, ℕ};
ghost use Rattle.std.specs.Int.{bit_at};
ghost use Rattle.fz_bits.specs.Words.{HasBit, AreOnes};

/// Whether the bit at a place is set.
pub fn has_bit(word: u64, place: u32) -> bool
    requires { place < 64 }
    ensures { IsTrue result ↔ HasBit word place }
{
    word & (1 << place) != 0
}

/// A word with one bit more.
pub fn with_bit(word: u64, place: u32) -> u64
    requires { place < 64 }
    ensures { AreOnes result (λ k. HasBit word k ⊎ (k ≡ place)) }
{
    word | (1 << place)
}

/// A word without one of its bits.
pub fn without_bit(word: u64, place: u32) -> u64
    requires { place < 64 }
    ensures ones { AreOnes result (λ k. HasBit word k × (k ≡ place → ⊥)) }
    ensures falls { HasBit word place → result < word }
{
    word & !(1 << place)
}

/// The bits from a place to a place, both among them.
pub fn run_of(first: u32, last: u32) -> u64
    requires first { first < 64 }
    requires last { last < 64 }
    ensures { AreOnes result (λ k. (first ≤ k) × (k ≤ last)) }
{
    (u64::MAX << first) & (u64::MAX >> (63 - last))
}

/// The bits that are in both.
pub fn common(a: u64, b: u64) -> u64
    ensures { AreOnes result (λ k. HasBit a k × HasBit b k) }
{
    a & b
}

/// The bits of the first that aren't in the second.
pub fn without(a: u64, b: u64) -> u64
    ensures { AreOnes result (λ k. HasBit a k × (HasBit b k → ⊥)) }
{
    a & !b
}

/// The bits that are in one of the two.
pub fn either(a: u64, b: u64) -> u64
    ensures { AreOnes result (λ k. HasBit a k ⊎ HasBit b k) }
{
    a | b
}

/// The bits moved up; those that leave the word are lost.
pub fn raised(word: u64, by: u32) -> u64
    requires { by < 64 }
    ensures { AreOnes result (λ k. (by ≤ k) × HasBit word (k - by)) }
{
    word << by
}

/// The bits moved down; those that leave the word are lost.
pub fn lowered(word: u64, by: u32) -> u64
    requires { by < 64 }
    ensures { AreOnes result (λ k. HasBit word (k + by)) }
{
    word >> by
}

/// The bits above a place.
pub fn bits_above(word: u64, place: u32) -> u64
    requires { place < 64 }
    ensures { AreOnes result (λ k. HasBit word k × (place < k)) }
{
    if place == 63 {
        return 0;
    }
    common(word, run_of(place + 1, 63))
}

/// The place of the lowest bit that is set.
pub fn lowest_bit(word: u64) -> u32
    requires { 0 < word }
    ensures place { result < 64 }
    ensures bit { HasBit word result }
    ensures none_before { (k : ℕ) → k < result → bit_at word k ≡ 0 }
{
    word.trailing_zeros()
}

/// The lowest run of bits that are set: its first and its last place.
pub fn first_run(word: u64) -> (u32, u32)
    requires { 0 < word }
    ensures first { result.0 ≤ result.1 }
    ensures last { result.1 < 64 }
    ensures run { (k : ℕ) → result.0 ≤ k → k ≤ result.1 → HasBit word k }
    ensures none_before { (k : ℕ) → k < result.0 → bit_at word k ≡ 0 }
    ensures none_after { bit_at word (result.1 + 1) ≡ 0 }
{
    let first = word.trailing_zeros();
    let rest = lowered(word, first);
    if rest == u64::MAX {
        return (0, 63);
    }
    (first, first + rest.trailing_ones() - 1)
}
