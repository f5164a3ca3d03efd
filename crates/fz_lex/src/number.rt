//! The number at a place.
ghost use Rattle.std.specs.Prelude.{◌≡◌, ◌≢◌, ◌↔◌, ℕ, ◌<◌, ◌≤◌, ◌⊎◌, ◌+◌, ◌==◌, ◌||◌, false, length, slice_index, IsTrue, MatchResult, MatchOption};
ghost use Rattle.std.specs.Char.{is_ascii_digit};
ghost use Rattle.fz_language.specs.Tokens.{IsExponent, IsTail, IsBased, IsFault};
ghost use Rattle.fz_lex.specs.declared.run.Radix.TheVariants as radices;
ghost use Rattle.fz_lex.specs.Steps.{IsRun, IsLongest, HasNone, HasNoBased, IsBasedAt, IsNaturalAt, IsBehindSign, IsNumberStart, HasNoPoint, IsPointAt, AreDigitsAt, is_digit_of, signed_of, IsFoundAt};

use crate::lexeme::Lexeme;
use crate::reading::Found;
use crate::run::{DigitRun, OVER, Radix, byte_at, digits, is_digit};
use fz_language::fault::TokenFault;

/// The number that begins at a digit or a minus.
pub(crate) fn number_at(text: &[u8], at: usize) -> Result<Found, TokenFault>
    requires within { at < length text.now }
    requires first { IsTrue (is_ascii_digit (slice_index text.now at))
        ⊎ (slice_index text.now at ≡ 45) }
    ensures { MatchResult result (IsFoundAt text.now at) (λ fault. IsFault text.now fault at) }
{
    let from = number_start(text, at);
    let Some(whole) = some_digits(text, from, Radix::Decimal) else {
        return Err(TokenFault::UnknownByte);
    };
    if let Some(stop) = float_end(text, whole.stop) {
        return Ok(Found {
            lexeme: Lexeme::Float,
            stop,
        });
    }
    let natural = natural(text, from, whole);
    if natural.value == OVER {
        return Err(TokenFault::LargeNumber);
    }
    Ok(Found {
        lexeme: Lexeme::Integer(signed(natural.value, from != at)),
        stop: natural.stop,
    })
}

/// Where the digits of a number begin.
fn number_start(text: &[u8], at: usize) -> usize
    requires within { at < length text.now }
    requires first { IsTrue (is_ascii_digit (slice_index text.now at))
        ⊎ (slice_index text.now at ≡ 45) }
    ensures { IsNumberStart text.now at result }
{
    if text[at] == b'-' { at + 1 } else { at }
}

/// A number of this size.
fn signed(size: u64, is_negative: bool) -> i32
    requires { size < OVER }
    ensures { result ≡ signed_of is_negative size }
{
    let value = size as i32;
    if is_negative { -value } else { value }
}

/// The digits that stand at a place, if one does.
fn some_digits(text: &[u8], at: usize, radix: Radix) -> Option<DigitRun>
    ensures { MatchOption result
        (is_digit_of radix (slice_index text.now at) ≡ false) (AreDigitsAt radix text.now at) }
{
    if !is_digit(radix, byte_at(text, at)) {
        return None;
    }
    Some(digits(text, at, radix))
}

/// The end of what stands after the digits of a float, if they end here and it is one.
fn float_end(text: &[u8], whole: usize) -> Option<usize>
    requires within { whole ≤ length text.now }
    ensures { MatchOption result (HasNone IsTail text.now whole) (IsLongest IsTail text.now whole) }
{
    match point_end(text, whole) {
        Some(part) => match exponent_end(text, part) {
            Some(stop) => Some(stop),
            None => Some(part),
        },
        None => exponent_end(text, whole),
    }
}

/// The end of a point and digits that stand here, if they do.
fn point_end(text: &[u8], at: usize) -> Option<usize>
    requires within { at ≤ length text.now }
    ensures { MatchOption result (HasNoPoint text.now at) (IsPointAt text.now at) }
{
    if byte_at(text, at) != b'.' {
        return None;
    }
    match some_digits(text, at + 1, Radix::Decimal) {
        Some(part) => Some(part.stop),
        None => None,
    }
}

fn is_exponent_letter(byte: u8) -> bool
    ensures { result ≡ ((byte == 101) || (byte == 69)) }
{
    byte == b'e' || byte == b'E'
}

/// The end of the exponent that stands here, if one does.
fn exponent_end(text: &[u8], at: usize) -> Option<usize>
    ensures { MatchOption result
        (HasNone IsExponent text.now at) (IsLongest IsExponent text.now at) }
{
    if !is_exponent_letter(byte_at(text, at)) {
        return None;
    }
    match some_digits(text, behind_sign(text, at), Radix::Decimal) {
        Some(run) => Some(run.stop),
        None => None,
    }
}

/// Where the digits of an exponent begin.
fn behind_sign(text: &[u8], at: usize) -> usize
    requires within { at < length text.now }
    ensures { IsBehindSign text.now at result }
{
    let sign = byte_at(text, at + 1);
    if sign == b'+' || sign == b'-' {
        at + 2
    } else {
        at + 1
    }
}

/// The number without a sign that begins with these decimal digits.
fn natural(text: &[u8], from: usize, whole: DigitRun) -> DigitRun
    requires run { IsRun is_ascii_digit text.now from whole.stop }
    ensures { IsNaturalAt text.now from whole result }
{
    match based(text, from, whole.stop) {
        Some(run) => run,
        None => whole,
    }
}

/// The hexadecimal or octal number whose first decimal digits are these, if it is one.
fn based(text: &[u8], from: usize, whole: usize) -> Option<DigitRun>
    requires run { IsRun is_ascii_digit text.now from whole }
    ensures { MatchOption result (HasNoBased text.now from) (IsBasedAt text.now from) }
{
    if whole != from + 1 {
        return None;
    }
    if byte_at(text, from) != b'0' {
        return None;
    }
    let letter = byte_at(text, whole);
    if letter == b'x' {
        return some_digits(text, whole + 1, Radix::Hexadecimal);
    }
    if letter == b'o' {
        return some_digits(text, whole + 1, Radix::Octal);
    }
    None
}
