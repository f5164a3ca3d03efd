//! Runs of bytes.
ghost use Rattle.std.specs.Prelude.{◌≡◌, ℕ, ◌+◌, ◌<◌, ◌≤◌, length, slice_index, slice_range, min};
ghost use Rattle.fz_language.specs.Tokens.{digits_value, digit_value};
ghost use Rattle.fz_language.specs.Tokens as spec;
ghost use Rattle.fz_lex.specs.Steps.{IsRun, radix_of, is_digit_of};

/// One more than the greatest number.
pub(crate) const OVER: u64 = 2_147_483_647;

/// How the digits of an integer are read.
#[derive(Clone, Copy, Debug, PartialEq, Eq)]
pub(crate) enum Radix {
    Decimal,
    Hexadecimal,
    Octal,
}

/// DigitRun up to `stop`, and their value, or `OVER` where it is greater.
#[derive(Clone, Copy)]
pub(crate) struct DigitRun {
    pub stop: usize,
    pub value: u64,
}

/// The byte at a place, or 0 past the end.
pub(crate) fn byte_at(text: &[u8], at: usize) -> u8
    ensures { result ≡ slice_index text.now at }
{
    if at < text.len() { text[at] } else { 0 }
}

/// Whether each byte may stand in a word.
#[rattlefmt::skip]
const WORD_BYTES: [bool; 256] = [
    false, false, false, false, false, false, false, false, false, false, false, false, false, false, false, false,
    false, false, false, false, false, false, false, false, false, false, false, false, false, false, false, false,
    false, false, false, false, false, false, false, false, false, false, false, false, false, false, false, false,
    true, true, true, true, true, true, true, true, true, true, false, false, false, false, false, false,
    false, true, true, true, true, true, true, true, true, true, true, true, true, true, true, true,
    true, true, true, true, true, true, true, true, true, true, true, false, false, false, false, true,
    false, true, true, true, true, true, true, true, true, true, true, true, true, true, true, true,
    true, true, true, true, true, true, true, true, true, true, true, false, false, false, false, false,
    false, false, false, false, false, false, false, false, false, false, false, false, false, false, false, false,
    false, false, false, false, false, false, false, false, false, false, false, false, false, false, false, false,
    false, false, false, false, false, false, false, false, false, false, false, false, false, false, false, false,
    false, false, false, false, false, false, false, false, false, false, false, false, false, false, false, false,
    false, false, false, false, false, false, false, false, false, false, false, false, false, false, false, false,
    false, false, false, false, false, false, false, false, false, false, false, false, false, false, false, false,
    false, false, false, false, false, false, false, false, false, false, false, false, false, false, false, false,
    false, false, false, false, false, false, false, false, false, false, false, false, false, false, false, false,
];

pub(crate) fn is_word_byte(byte: u8) -> bool
    ensures { result ≡ spec.is_word_byte byte }
{
    WORD_BYTES[usize::from(byte)]
}

/// The end of the bytes of a word that stand from a place on.
pub(crate) fn word_end(text: &[u8], from: usize) -> usize
    requires { from ≤ length text.now }
    ensures { IsRun spec.is_word_byte text.now from result }
{
    let mut stop = from;
    'word: while stop < text.len() && is_word_byte(text[stop]) {
        stop += 1;
    }
    stop
}

/// Whether the byte is a digit.
pub(crate) fn is_digit(radix: Radix, byte: u8) -> bool
    ensures { result ≡ is_digit_of radix byte }
{
    match radix {
        Radix::Decimal => byte.is_ascii_digit(),
        Radix::Hexadecimal => byte.is_ascii_hexdigit(),
        Radix::Octal => byte.is_ascii_digit() && byte < b'8',
    }
}

/// What a digit counts.
fn value_of(digit: u8) -> u8
    ensures { result ≡ digit_value digit }
{
    if digit < b':' {
        digit.saturating_sub(b'0')
    } else if digit < b'G' {
        digit.saturating_sub(b'A' - 10)
    } else {
        digit.saturating_sub(b'a' - 10)
    }
}

/// The digits that stand from a place on, maybe none.
pub(crate) fn digits(text: &[u8], from: usize, radix: Radix) -> DigitRun
    requires { from ≤ length text.now }
    ensures run { IsRun (is_digit_of radix) text.now from result.stop }
    ensures value { result.value
        ≡ min (digits_value (radix_of radix) (slice_range text.now from result.stop)) OVER }
{
    let base: u64 = match radix {
        Radix::Decimal => 10,
        Radix::Hexadecimal => 16,
        Radix::Octal => 8,
    };
    let mut stop = from;
    let mut value: u64 = 0;
    'digits: while stop < text.len() && is_digit(radix, text[stop]) {
        let digit = u64::from(value_of(text[stop]));
        value = (base * value + digit).min(OVER);
        stop += 1;
    }
    DigitRun { stop, value }
}
