//! Sets of rows as words, 64 rows to each.
ghost use Rattle.std.specs.Prelude.{◌≡◌, ◌<◌, ◌≤◌, ◌/◌, ◌↔◌, ◌⊎◌, ℕ, length, IsTrue, MatchOption, false};
ghost use Rattle.fz_bits.specs.Members.{HasMember, IsOneOf, words_for};

use fz_bits::Chunk;
use fz_bits::word::{common, either};

/// Puts all rows below a count into a set, and takes all others from it.
pub fn fill(rows: &mut [u64], count: usize)
    requires { length rows.old ≡ words_for count }
    ensures members { (i : ℕ) → HasMember rows.new i ↔ (i < count) }
    ensures size { length rows.new ≡ length rows.old }
{
    rows.fill(u64::MAX);
    rows[count / 64] = (1 << (count % 64)) - 1;
}

/// Takes all rows from a set.
pub fn clear(rows: &mut [u64])
    ensures none { (i : ℕ) → HasMember rows.new i → ⊥ }
    ensures size { length rows.new ≡ length rows.old }
{
    rows.fill(0);
}

/// Puts the rows of a chunk into a set.
pub fn join(rows: &mut [u64], chunk: Chunk)
    requires { chunk.word < length rows.old }
    ensures members { (i : ℕ) → HasMember rows.new i ↔ (HasMember rows.old i ⊎ IsOneOf chunk i) }
    ensures size { length rows.new ≡ length rows.old }
{
    rows[chunk.word] = either(rows[chunk.word], chunk.bits);
}

/// Keeps the rows that another set has too.
pub fn meet(rows: &mut [u64], others: &[u64])
    requires { length rows.old ≡ length others.now }
    ensures members { (i : ℕ) → HasMember rows.new i ↔ (HasMember rows.old i × HasMember others.now i) }
    ensures size { length rows.new ≡ length rows.old }
{
    for (place, word) in others.iter().enumerate() {
        rows[place] = common(rows[place], *word);
    }
}

/// Whether a row of a chunk is in a set.
pub fn meets(rows: &[u64], chunk: Chunk) -> bool
    requires { chunk.word < length rows.now }
    ensures { IsTrue result ↔ ((i : ℕ) × HasMember rows.now i × IsOneOf chunk i) }
{
    common(rows[chunk.word], chunk.bits) != 0
}

/// Whether no row is in a set.
pub fn is_empty(rows: &[u64]) -> bool
    ensures none { IsTrue result → (i : ℕ) → HasMember rows.now i → ⊥ }
    ensures some { result ≡ false → (i : ℕ) × HasMember rows.now i }
{
    for word in rows {
        if *word != 0 {
            return false;
        }
    }
    true
}

/// Puts the rows of words into a set.
pub fn join_all(rows: &mut [u64], words: &[u64])
    requires { length words.now ≤ length rows.old }
    ensures members { (i : ℕ) → HasMember rows.new i ↔ (HasMember rows.old i ⊎ HasMember words.now i) }
    ensures size { length rows.new ≡ length rows.old }
{
    for (word, bits) in words.iter().enumerate() {
        join(rows, Chunk { word, bits: *bits });
    }
}

/// The place of a word with a row that is in a set. The word at one place is looked at first.
pub fn meeting(rows: &[u64], words: &[u64], near: usize) -> Option<usize>
    requires { length words.now ≤ length rows.now }
    ensures { MatchOption result ((i : ℕ) → HasMember rows.now i → HasMember words.now i → ⊥)
        (λ k. (i : ℕ) × HasMember rows.now i × HasMember words.now i × (i / 64 ≡ k)) }
{
    if let Some(bits) = words.get(near) {
        if meets(
            rows,
            Chunk {
                word: near,
                bits: *bits,
            },
        ) {
            return Some(near);
        }
    }
    for (word, bits) in words.iter().enumerate() {
        if meets(rows, Chunk { word, bits: *bits }) {
            return Some(word);
        }
    }
    None
}
