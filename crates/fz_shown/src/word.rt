//! The pieces of a text, and the values that they are.
ghost use Rattle.std.specs.Prelude.{◌≡◌, ◌≤◌, drop, length};
ghost use Rattle.fz_shown.specs.Guesses.{after, length_before, magnitude, number_of, value_of};

use fz_model::Kind;

/// How many bytes stand before the first of these.
pub(crate) fn length_before(text: &[u8], ends: &[u8]) -> usize
    ensures value { result ≡ length_before ends.now text.now }
    ensures within { result ≤ length text.now }
{
    for (place, byte) in text.iter().enumerate() {
        if ends.contains(byte) {
            return place;
        }
    }
    text.len()
}

/// What stands after so many bytes.
pub(crate) fn skip(text: &[u8], count: usize) -> &[u8]
    ensures { result.now ≡ drop count text.now }
{
    &text[count.min(text.len())..]
}

/// What stands after the first such byte.
pub(crate) fn after(byte: u8, text: &[u8]) -> &[u8]
    ensures { result.now ≡ after byte text.now }
{
    skip(skip(text, length_before(text, &[byte])), 1)
}

/// The value that a word is; of a word that is none some number.
pub(crate) fn value_of(kind: Kind, word: &[u8]) -> i32
    ensures { result ≡ value_of kind word.now }
{
    match kind {
        Kind::Bool => i32::from(word == b"true".as_slice()),
        Kind::Int => number(word),
    }
}

/// The number that a word is, maybe below 0.
fn number(word: &[u8]) -> i32
    ensures { result ≡ number_of word.now }
{
    match word {
        [] => 0,
        [b'-', digits @ ..] => -(magnitude(digits) as i32),
        _ => magnitude(word) as i32,
    }
}

/// The number that these digits are, at most the greatest of the language.
fn magnitude(digits: &[u8]) -> u64
    ensures value { result ≡ magnitude 0 digits.now }
    ensures few { result ≤ 2147483646 }
{
    let mut number = 0;
    for digit in digits {
        number = (number * 10 + u64::from(digit.saturating_sub(b'0'))).min(GREATEST);
    }
    number
}

/// The greatest number of the language.
const GREATEST: u64 = 2_147_483_646;
