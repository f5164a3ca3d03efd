//! The numbers that a text begins with.
ghost use Rattle.std.specs.Prelude.{◌≡◌, ◌++◌, ℕ, ℤ, ◌^◌, ◌<◌, ◌≤◌, List, Some, decimal, length, IsTrue, ◌↔◌};
ghost use Rattle.std.specs.Fmt.{signed_decimal};
ghost use Rattle.std.specs.List.{AllByRecursion};
ghost use Rattle.fz_part.specs.Words.{IsOfNumber, EndsNumber, IsWord};

/// The digits and minuses that a text begins with, and the rest.
pub fn split_number(text: &[u8]) -> (&[u8], &[u8])
    ensures number { (front rest : List ℕ) → AllByRecursion IsOfNumber front → EndsNumber rest
        → text.now ≡ front ++ rest → (result.0.now ≡ front) × (result.1.now ≡ rest) }
    ensures shorter { length result.1.now ≤ length text.now }
{
    text.split_at(number_length(text))
}

fn number_length(text: &[u8]) -> usize
    ensures within { result ≤ length text.now }
    ensures length { (front rest : List ℕ) → AllByRecursion IsOfNumber front → EndsNumber rest
        → text.now ≡ front ++ rest → result ≡ length front }
{
    for (i, byte) in text.iter().enumerate() {
        if !is_of_number(*byte) {
            return i;
        }
    }
    text.len()
}

/// Whether a byte is a digit or a minus, or a byte between these.
fn is_of_number(byte: u8) -> bool
    ensures { IsTrue result ↔ IsOfNumber byte }
{
    b'-' <= byte && byte <= b'9'
}

/// The number that a word is.
pub fn natural(word: &[u8]) -> Option<u32>
    ensures { (n : ℕ) → n < 2 ^ 32 → word.now ≡ decimal n → result ≡ Some n }
{
    let Ok(digits) = str::from_utf8(word) else {
        return None;
    };
    digits.parse::<u32>().ok()
}

/// The number that a word is, maybe below 0.
pub fn integer(word: &[u8]) -> Option<i32>
    ensures { (n : ℤ) → IsWord n → word.now ≡ signed_decimal n → result ≡ Some n }
{
    let Ok(digits) = str::from_utf8(word) else {
        return None;
    };
    digits.parse::<i32>().ok()
}
