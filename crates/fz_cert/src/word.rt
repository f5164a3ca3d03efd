//! The words and numbers that a text begins with.
ghost use Rattle.std.specs.Prelude.{◌≡◌, ◌++◌, ◌∷◌, ℕ, ℤ, ◌^◌, ◌<◌, ◌≤◌, List, Some, decimal, length};
ghost use Rattle.std.specs.Fmt.{signed_decimal};
ghost use Rattle.std.specs.List.{AllByRecursion};
ghost use Rattle.fz_refutes.specs.Boxes.{IsWord};
ghost use Rattle.fz_cert.specs.Guesses.{EndsWord, IsInWord};

/// How many bytes stand before the first blank or end of a line.
fn word_length(text: &[u8]) -> usize
    ensures within { result ≤ length text.now }
    ensures length { (front rest : List ℕ) → AllByRecursion IsInWord front → EndsWord rest
        → text.now ≡ front ++ rest → result ≡ length front }
{
    for (i, byte) in text.iter().enumerate() {
        if *byte <= b' ' {
            return i;
        }
    }
    text.len()
}

/// The bytes before the first blank or end of a line, and the rest.
pub fn split_word(text: &[u8]) -> (&[u8], &[u8])
    ensures word { (front rest : List ℕ) → AllByRecursion IsInWord front → EndsWord rest
        → text.now ≡ front ++ rest → (result.0.now ≡ front) × (result.1.now ≡ rest) }
{
    text.split_at(word_length(text))
}

/// The number that a word is.
pub fn natural(word: &[u8]) -> Option<u32>
    ensures { (n : ℕ) → n < 2 ^ 32 → word.now ≡ decimal n → result ≡ Some n }
{
    let Ok(digits) = str::from_utf8(word) else {
        return None;
    };
    digits.parse::<u32>().ok()
}

/// The number that a word is, maybe below 0.
pub fn integer(word: &[u8]) -> Option<i32>
    ensures { (n : ℤ) → IsWord n → word.now ≡ signed_decimal n → result ≡ Some n }
{
    let Ok(digits) = str::from_utf8(word) else {
        return None;
    };
    digits.parse::<i32>().ok()
}
