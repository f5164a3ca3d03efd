//! The words of a line.
ghost use Rattle.std.specs.Prelude.{◌≡◌, ◌<◌, ◌^◌, ◌++◌, ◌∷◌, length, option_map, IfSome, IfNone};
ghost use Rattle.fz_join.specs.Joining.{IsLine};
ghost use Rattle.fz_join.specs.Machine.{IsSmall, after, is_ending, magnitude, number_of, word_of};

/// What stands after a prefix, if a text begins with it.
pub(crate) fn after<'a>(prefix: &[u8], text: &'a [u8]) -> Option<&'a [u8]>
    ensures { option_map (λ rest. rest.now) result ≡ after prefix.now text.now }
{
    text.strip_prefix(prefix)
}

/// The line that a text begins with, if it is ended, and what stands behind its end.
pub(crate) fn next_line(text: &[u8]) -> Option<(&[u8], &[u8])>
    ensures some { IfSome result (λ parted. IsLine parted.0.now
        × (text.now ≡ parted.0.now ++ 10 ∷ parted.1.now)) }
    ensures none { IfNone result (IsLine text.now) }
{
    let end = text.iter().position(|byte| *byte == b'\n')?;
    Some((&text[..end], &text[end + 1..]))
}

/// What stands before the first space, and the rest.
pub(crate) fn split_word(text: &[u8]) -> (&[u8], &[u8])
    ensures { (result.0.now, result.1.now) ≡ word_of text.now }
{
    let space = text.iter().position(|byte| *byte == b' ');
    text.split_at(space.unwrap_or(text.len()))
}

/// The number that a word is, maybe below 0.
pub(crate) fn number(word: &[u8]) -> Option<i64>
    ensures value { result ≡ number_of word.now }
    ensures small { IfSome result IsSmall }
{
    match word {
        [] => None,
        [b'-', digits @ ..] => magnitude(digits).map(|n| -(n as i64)),
        _ => magnitude(word).map(|n| n as i64),
    }
}

/// The number that these digits are, where it isn't of many.
fn magnitude(digits: &[u8]) -> Option<u64>
    ensures value { result ≡ magnitude 0 digits.now }
    ensures few { IfSome result (λ n. n < 2 ^ 36) }
{
    let mut number = 0;
    for digit in digits {
        if !digit.is_ascii_digit() || MANY <= number {
            return None;
        }
        number = number * 10 + u64::from(*digit - b'0');
    }
    Some(number)
}

/// A number that may have no digit behind it.
const MANY: u64 = 1 << 32;

/// Whether a text ends a part's run: the line that ends a run of a model, or nothing.
pub(crate) fn is_ending(text: &[u8]) -> bool
    ensures { result ≡ is_ending text.now }
{
    text.is_empty()
        || text == b"==========".as_slice()
        || text == b"=====UNSATISFIABLE=====".as_slice()
}
